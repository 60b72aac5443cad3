ghost use Rattle.std.specs.Prelude.{◌≡◌, IfSome};

use crate::option_table::growing_options;
use crate::{
    Chance, Count, Crash, GrowOptions, NodeCount, OPTION_COUNT, OptionValue, Order, Pace, Share,
};
use ov_ids::{NodeId, Params, Refill};

/// A value for each option of growing, in the order of their table.
#[derive(Clone, Copy)]
pub struct OptionValues(pub [OptionValue; OPTION_COUNT]);

impl OptionValues {
    /// The options of growing with these values, and with this seed. None: --prwl is above --arwl, or an option takes
    /// no such value.
    pub fn options(&self, seed: u64) -> Option<GrowOptions>
        ensures seed { IfSome result (λ options. options.seed ≡ seed) }
    {
        Some(GrowOptions {
            nodes: NodeCount::new(self.number("nodes"))?,
            params: self.params()?,
            seed,
            loss_join: Chance::new(self.number("loss-join"))?,
            loss: Chance::new(self.number("loss"))?,
            repeat: Share::new(self.number("repeat"))?,
            order: self.order(),
            pace: Pace::new(self.number("pace")),
            rounds: Count::new(self.number("rounds"))?,
            crash: self.crash()?,
            heal: Count::new(self.number("heal"))?,
            broadcasts: Count::new(self.number("broadcasts"))?,
            sequential: self.is_given("sequential"),
            sender: self.sender(),
            detect: self.is_given("detect"),
        })
    }

    /// The value of the option of this name.
    pub fn value(&self, name: &str) -> OptionValue {
        for (option, value) in growing_options().iter().zip(&self.0) {
            if option.name == name {
                return *value;
            }
        }
        OptionValue::Given(false)
    }

    /// The number of the option of this name. A word, as `none`, is above all numbers that an option takes.
    fn number(&self, name: &str) -> u32 {
        match self.value(name) {
            OptionValue::Number(number) => u32::try_from(number).unwrap_or(u32::MAX),
            OptionValue::Word(_) | OptionValue::Given(_) => u32::MAX,
        }
    }

    /// Whether the option of this name, which takes nothing, is there.
    fn is_given(&self, name: &str) -> bool {
        matches!(self.value(name), OptionValue::Given(true))
    }

    /// The nodes' parameters.
    fn params(&self) -> Option<Params> {
        let refill = match self.value("refill") {
            OptionValue::Word(word) => Refill::from_name(word.as_bytes())?,
            OptionValue::Number(_) | OptionValue::Given(_) => return None,
        };
        let params = Params::new(
            self.number("active"),
            self.number("passive"),
            self.number("arwl"),
            self.number("prwl"),
            self.number("ka"),
            self.number("kp"),
            self.number("ttl"),
        )
        .ok()?;
        Some(params.with_refill(refill))
    }

    fn order(&self) -> Order {
        match self.value("order") {
            OptionValue::Word("oldest") => Order::Oldest,
            _ => Order::Random,
        }
    }

    fn crash(&self) -> Option<Crash> {
        match self.value("crash") {
            OptionValue::Word(_) => Some(Crash::Cut),
            _ => Some(Crash::Share(Share::new(self.number("crash"))?)),
        }
    }

    fn sender(&self) -> Option<NodeId> {
        match self.value("sender") {
            OptionValue::Number(number) => u32::try_from(number).ok().map(NodeId::new),
            _ => None,
        }
    }
}
