//! The text of a file with verdict split around its entries, in three parts: up to the fans, from there to the pairs,
//! and behind these. It is the text of a file without entries, cut at two places.
ghost use Rattle.std.specs.Prelude.{◌≡◌, ◌≤◌, ◌+◌, ◌-◌, length, string_bytes, IfOk};
ghost use Rattle.serde_json.specs.Written.{compact_text};
ghost use Rattle.ov_cert.specs.declared.cert.Cert.TheVariants as cert;
ghost use Rattle.ov_certfile.specs.DataOf.{ids_data};
ghost use Rattle.ov_certwriter.specs.Code.Parts.{without_entries, cut_text, ArePartsOf};

use crate::entry_texts::put_ids;
use ov_cert::{Cert, Split};
use ov_certfile::to_large_text;
use ov_graph::Graph;
use ov_ids::{NodeId, OutOfMemory};
use std::alloc::Global;
use std::marker::Model;

/// How long the texts `{"cut":` and `,"fans":[` are.
const AROUND_CUT: usize = 16;

/// How long the texts `],"side":` and `,"verdict":"split","version":1}` are.
const AROUND_SIDE: usize = 40;

/// The text of a file around its fans and its pairs. Contracts see the three parts.
#[derive(Drop)]
pub(crate) struct Parts {
    text: String,
    fans_at: usize,
    pairs_at: usize,
}

impl Model for Parts {
    ghost use Rattle.std.specs.Prelude.{◌≤◌, length, string_bytes};
    ghost use Rattle.ov_certwriter.specs.Code.Parts.{PartsState, cut_text};

    ghost Value = { PartsState };

    ghost view = { λ p. cut_text (string_bytes p.text) p.fans_at p.pairs_at };

    ghost invariant = { λ p. (p.fans_at ≤ p.pairs_at) × (p.pairs_at ≤ length (string_bytes p.text)) };
}

impl Parts {
    /// The parts of the files of certificates with this outline, which is a split and has no entries. OutOfMemory (99)
    /// if an allocation is refused.
    pub(crate) fn of(
        alloc: Global,
        outline: &Cert,
        split: &Split,
        graph: &Graph,
        group: &[NodeId],
        moment: u32,
    ) -> Result<Parts, OutOfMemory>
        requires { outline.now ≡ cert.Split (without_entries split.now) }
        ensures { IfOk result (ArePartsOf split.now graph.now group.now moment) }
    {
        let text = to_large_text(alloc, outline, graph, group, moment)?;
        let cut = ids_length(alloc, split.cut.as_slice())?;
        let side = ids_length(alloc, split.side.as_slice())?;
        Ok(Parts::around(text, cut, side))
    }

    /// The parts of the text of a file without entries, in which the texts of the cut and of the side are so long.
    fn around(text: String, cut: usize, side: usize) -> Parts
        requires { (cut + 16) + (side + 40) ≤ length (string_bytes text) }
        ensures { result ≡ cut_text (string_bytes text) (cut + 16) (length (string_bytes text) - (side + 40)) }
    {
        let length = text.len();
        Parts {
            text,
            fans_at: cut + AROUND_CUT,
            pairs_at: length - (side + AROUND_SIDE),
        }
    }

    /// The part up to the fans.
    pub(crate) fn head(&self) -> &[u8]
        ensures { result.now ≡ self.now.head }
    {
        &self.text.as_bytes()[..self.fans_at]
    }

    /// The part between the fans and the pairs.
    pub(crate) fn middle(&self) -> &[u8]
        ensures { result.now ≡ self.now.middle }
    {
        &self.text.as_bytes()[self.fans_at..self.pairs_at]
    }

    /// The part behind the pairs.
    pub(crate) fn tail(&self) -> &[u8]
        ensures { result.now ≡ self.now.tail }
    {
        &self.text.as_bytes()[self.pairs_at..]
    }
}

/// How long the text of these ids is.
fn ids_length(alloc: Global, ids: &[NodeId]) -> Result<usize, OutOfMemory>
    ensures { IfOk result (λ n. n ≡ length (compact_text (ids_data ids.now))) }
{
    let room = ids.len().saturating_mul(11).saturating_add(2);
    let mut text = vec![in alloc; 0; room]?;
    Ok(put_ids(&mut text, 0, ids))
}
