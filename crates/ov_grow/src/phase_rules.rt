ghost use Rattle.std.specs.Prelude.{◌≡◌};
ghost use Rattle.ov_grow.specs.Phases.{crashing, healing, joining, rules_of, settling};

use ov_grow_options::{Chance, GrowOptions, Order, Share};
use ov_ids::NodeId;

/// What holds in a phase: what becomes of packets when their turn comes, and how broadcasts are made.
#[derive(Clone, Copy)]
pub(crate) struct PhaseRules {
    /// The chance that a packet is lost.
    pub(crate) loss: Chance,
    /// The chance that a packet that is not lost is repeated.
    pub(crate) repeat: Share,
    /// Whose turn is next.
    pub(crate) order: Order,
    /// Whether a sender is told that the receiver of its packet crashed.
    pub(crate) tells_crashes: bool,
    /// Whether broadcasts are made one by one.
    pub(crate) sequential: bool,
    /// The node that makes each broadcast; without it one of the live nodes is chosen for each.
    pub(crate) sender: Option<NodeId>,
}

impl PhaseRules {
    /// The rules while nodes join.
    pub(crate) fn joining(options: &GrowOptions) -> PhaseRules
        ensures { result ≡ joining options.now }
    {
        rules_of(options, options.loss_join, false)
    }

    /// The rules while the overlay settles.
    pub(crate) fn settling(options: &GrowOptions) -> PhaseRules
        ensures { result ≡ settling options.now }
    {
        rules_of(options, options.loss, false)
    }

    /// The rules from the crashes on.
    pub(crate) fn crashing(options: &GrowOptions) -> PhaseRules
        ensures { result ≡ crashing options.now }
    {
        rules_of(options, options.loss, options.detect)
    }

    /// The rules while the overlay heals.
    pub(crate) fn healing(options: &GrowOptions) -> PhaseRules
        ensures { result ≡ healing options.now }
    {
        rules_of(options, options.loss, true)
    }
}

/// The rules of a phase with this chance of loss, in which senders are told of crashes, or are not.
fn rules_of(options: &GrowOptions, loss: Chance, tells_crashes: bool) -> PhaseRules
    ensures { result ≡ rules_of options.now loss tells_crashes }
{
    PhaseRules {
        loss,
        repeat: options.repeat,
        order: options.order,
        tells_crashes,
        sequential: options.sequential,
        sender: options.sender,
    }
}
