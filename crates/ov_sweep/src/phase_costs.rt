ghost use Rattle.std.specs.Prelude.{◌≡◌, ◌+◌, ◌*◌, IfOk, map, sum};
ghost use Rattle.std.specs.List.{sum_by};
ghost use Rattle.ov_sweep.specs.PhaseCosts.{mean, mean_of, parts_of_one, phase_costs, redundancies, redundancy_of};
ghost use Rattle.ov_grow.specs.MessageCosts.{sent_of};

use ov_grow::{CountedKind, MessageCost};
use ov_ids::OutOfMemory;
use ov_sweep_rows::{FourDecimals, PhaseCosts};

/// What these broadcasts cost together. OutOfMemory (99) is returned if a number is past 32 bits, or one in parts of
/// 10,000 past 64.
pub(crate) fn phase_costs(costs: &[MessageCost]) -> Result<PhaseCosts, OutOfMemory>
    ensures { IfOk result (λ told. told ≡ phase_costs costs.now) }
{
    Ok(PhaseCosts {
        gossip: total(costs, CountedKind::Gossip)?,
        ihave: total(costs, CountedKind::Ihave)?,
        graft: total(costs, CountedKind::Graft)?,
        prune: total(costs, CountedKind::Prune)?,
        hops: mean_hops(costs)?,
        redundancy: mean_redundancy(costs)?,
    })
}

/// How many messages of a kind these broadcasts cost.
fn total(costs: &[MessageCost], kind: CountedKind) -> Result<u32, OutOfMemory>
    ensures { IfOk result (λ n. n ≡ sum_by (sent_of kind) costs.now) }
{
    let mut total = 0u32;
    for cost in costs {
        match total.checked_add(cost.sent(kind)) {
            Some(more) => total = more,
            None => return Err(OutOfMemory),
        }
    }
    Ok(total)
}

/// The mean of the broadcasts' hops.
fn mean_hops(costs: &[MessageCost]) -> Result<Option<FourDecimals>, OutOfMemory>
    ensures { IfOk result (λ m. m ≡ mean (map (λ c. c.hops * parts_of_one) costs.now)) }
{
    let mut sum = Numbers::NONE;
    for cost in costs {
        sum = sum.with(u64::from(cost.hops) * FourDecimals::ONE)?;
    }
    Ok(sum.mean())
}

/// The mean of the broadcasts' relative redundancies.
fn mean_redundancy(costs: &[MessageCost]) -> Result<Option<FourDecimals>, OutOfMemory>
    ensures { IfOk result (λ m. m ≡ mean (redundancies costs.now)) }
{
    let mut sum = Numbers::NONE;
    for cost in costs {
        if let Some(redundancy) = redundancy(cost) {
            sum = sum.with(redundancy)?;
        }
    }
    Ok(sum.mean())
}

/// The relative redundancy of a broadcast, in parts of 10,000, if two nodes delivered it.
fn redundancy(cost: &MessageCost) -> Option<u64>
    ensures { result ≡ redundancy_of cost.now }
{
    if cost.delivered < 2 {
        return None;
    }
    let sent = u64::from(cost.gossip) * FourDecimals::ONE;
    let needed = u64::from(cost.delivered) - 1;
    Some((sent / needed).saturating_sub(FourDecimals::ONE))
}

/// The sum of some numbers in parts of 10,000, and how many they are.
#[derive(Clone, Copy)]
struct Numbers {
    total: u64,
    count: u64,
}

impl Numbers {
    /// No numbers.
    const NONE: Numbers = Numbers { total: 0, count: 0 };

    /// One number more. OutOfMemory (99) is returned if the sum is past 64 bits.
    fn with(self, number: u64) -> Result<Numbers, OutOfMemory>
        ensures total { IfOk result (λ n. n.total ≡ self.total + number) }
        ensures count { IfOk result (λ n. n.count ≡ self.count + 1) }
    {
        let Some(total) = self.total.checked_add(number) else {
            return Err(OutOfMemory);
        };
        let Some(count) = self.count.checked_add(1) else {
            return Err(OutOfMemory);
        };
        Ok(Numbers { total, count })
    }

    /// The mean, rounded down, if there are numbers.
    fn mean(self) -> Option<FourDecimals>
        ensures { result ≡ mean_of self.total self.count }
    {
        if self.count == 0 {
            return None;
        }
        Some(FourDecimals {
            parts: self.total / self.count,
        })
    }
}
