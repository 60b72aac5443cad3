ghost use Rattle.std.specs.Prelude.{◌≡◌};
ghost use Rattle.std.specs.Option.{option_copied};
ghost use Rattle.ov_drawing.specs.Chosen.{entry_paths, fan_paths, pair_paths};

use ov_cert::{Cert, FanPaths, PairPaths, Split};
use ov_ids::NodeId;
use ov_lists::Paths;

/// An entry of a certificate, named by its nodes.
#[derive(Clone, Copy, Debug, PartialEq, Eq)]
pub enum ChosenEntry {
    /// The entry of the pair of `i` and `j`, in this order.
    Pair { i: NodeId, j: NodeId },
    /// The entry of the fan of `j`.
    Fan { j: NodeId },
}

/// The paths of an entry of a certificate, if it has this entry.
pub(crate) fn entry_paths(cert: &Cert, entry: ChosenEntry) -> Option<&Paths>
    ensures { option_copied result ≡ entry_paths cert.now entry }
{
    match cert {
        Cert::Linked { .. } => None,
        Cert::Split(split) => match entry {
            ChosenEntry::Pair { i, j } => pair_paths(split.pairs.as_slice(), i, j),
            ChosenEntry::Fan { j } => fan_paths(split.fans.as_slice(), j),
        },
    }
}

/// The paths of the first of these entries that is of this pair.
fn pair_paths(pairs: &[PairPaths], i: NodeId, j: NodeId) -> Option<&Paths>
    ensures { option_copied result ≡ pair_paths i j pairs.now }
{
    for entry in pairs {
        if entry.i == i && entry.j == j {
            return Some(&entry.paths);
        }
    }
    None
}

/// The paths of the first of these entries that is of this fan.
fn fan_paths(fans: &[FanPaths], j: NodeId) -> Option<&Paths>
    ensures { option_copied result ≡ fan_paths j fans.now }
{
    for entry in fans {
        if entry.j == j {
            return Some(&entry.paths);
        }
    }
    None
}
