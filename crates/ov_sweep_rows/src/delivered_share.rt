ghost use Rattle.std.specs.Prelude.{◌≡◌, ◌≢◌, ◌*◌, ◌/◌, IfSome, IfNone};

/// A delivered share, in parts of 10,000, rounded down.
#[derive(Clone, Copy, PartialEq)]
pub struct DeliveredShare {
    /// How many parts of 10,000.
    pub parts: u64,
}

impl DeliveredShare {
    /// How many parts are the whole.
    pub const WHOLE: u64 = 10_000;

    /// The share of so many deliveries of so many broadcasts among so many live nodes. None is returned without
    /// broadcasts, and without nodes.
    pub fn new(deliveries: u32, broadcasts: u32, nodes: u32) -> Option<DeliveredShare>
        ensures some { IfSome result (λ share. (broadcasts * nodes ≢ 0)
            × (share.parts ≡ deliveries * 10000 / (broadcasts * nodes))) }
        ensures none { IfNone result (broadcasts * nodes ≡ 0) }
    {
        let most = u64::from(broadcasts) * u64::from(nodes);
        if most == 0 {
            return None;
        }
        Some(DeliveredShare {
            parts: u64::from(deliveries) * DeliveredShare::WHOLE / most,
        })
    }
}
