//! The entries of a certificate, for pairs and for fans.
ghost use Rattle.std.specs.Prelude.{◌≡◌, length, IfOk};
ghost use Rattle.ov_even.specs.Code.Entries.{AreNamedPieces, pair_entries, fan_entries};

use crate::paths_by_ids::NamedPaths;
use ov_cert::{FanPaths, PairPaths};
use ov_fans::{Piece, member};
use ov_ids::{NodeId, OutOfMemory};
use std::alloc::Global;

/// The entries of a certificate, for pairs and for fans.
#[derive(Drop)]
pub(crate) struct Entries {
    pub(crate) pairs: Vec<PairPaths>,
    pub(crate) fans: Vec<FanPaths>,
}

/// The entries of these pieces: those of pairs, and those of fans.
pub(crate) fn entries_of(
    alloc: Global,
    group: &[NodeId],
    named: Vec<NamedPaths>,
) -> Result<Entries, OutOfMemory>
    requires { AreNamedPieces (length group.now) named.items }
    ensures pairs { IfOk result (λ entries. entries.pairs.items ≡ pair_entries group.now named.items) }
    ensures fans { IfOk result (λ entries. entries.fans.items ≡ fan_entries group.now named.items) }
{
    let mut pairs = Vec::new(alloc);
    let mut fans = Vec::new(alloc);
    for NamedPaths { piece, paths } in named {
        match piece {
            Piece::Pair { i, j, .. } => {
                let (i, j) = (member(group, i), member(group, j));
                pairs.push(PairPaths { i, j, paths })?;
            }
            Piece::Fan { j, .. } => {
                let j = member(group, j);
                fans.push(FanPaths { j, paths })?;
            }
        }
    }
    Ok(Entries { pairs, fans })
}
