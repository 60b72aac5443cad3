//! The nodes that have a name, found by the name.
ghost use Rattle.std.specs.Prelude.{◌≡◌, ◌+◌, ℕ, List, length, slice_index_or, Option, None, IfOk, OnOk};
ghost use Rattle.std.specs.Option.{option_copied};
ghost use Rattle.std.specs.BTreeMap.{get_by};
ghost use Rattle.std.specs.Cmp.Lexicographic.{slice_cmp};
ghost use Rattle.std.specs.Ordering.{nat_cmp};
ghost use Rattle.ov_graphfile.specs.Code.Bearers.{AreBearers, one_more};

use crate::name_table::Names;
use ov_ids::OutOfMemory;
use std::alloc::Global;
use std::collections::BTreeMap;

/// Who has a name.
#[derive(Clone, Copy)]
pub(crate) enum Bearer {
    /// The node at this place, and no other one.
    One(usize),
    /// Two nodes or more.
    Several,
}

/// Who has each of the names of a graph's nodes.
#[derive(Drop)]
pub(crate) struct NodesByName<'a> {
    bearers: BTreeMap<&'a [u8], Bearer>,
}

impl<'a> NodesByName<'a> {
    /// The nodes by these names.
    pub(crate) fn new(alloc: Global, names: &Names<'a>) -> Result<NodesByName<'a>, OutOfMemory>
        ensures { IfOk result (λ nodes. AreBearers names.now.told (length names.now.graph.nodes)
            (λ name. get_by (λ k. slice_cmp nat_cmp name k.now) nodes.bearers)) }
    {
        let mut nodes = NodesByName {
            bearers: BTreeMap::new(alloc),
        };
        let count = names.graph().nodes().len();
        for place in 0..count {
            nodes.add(names.name_at(place), place)?;
        }
        Ok(nodes)
    }

    /// Adds the node at the next place, which has this name, or none.
    fn add(&mut self, name: Option<&'a [u8]>, place: usize) -> Result<(), OutOfMemory>
        ensures { OnOk result ((told : List (Option (List ℕ)))
            → slice_index_or told place None ≡ option_copied name.entry
            → AreBearers told place (λ name. get_by (λ k. slice_cmp nat_cmp name k.now) self.old.bearers)
            → AreBearers told (place + 1) (λ name. get_by (λ k. slice_cmp nat_cmp name k.now) self.new.bearers)) }
    {
        let Some(name) = name else {
            return Ok(());
        };
        let bearer = one_more(self.bearer(name), place);
        self.bearers.insert(name, bearer)?;
        Ok(())
    }

    /// Who has this name, if somebody has it.
    pub(crate) fn bearer(&self, name: &[u8]) -> Option<Bearer>
        ensures { result ≡ get_by (λ k. slice_cmp nat_cmp name.now k.now) self.now.bearers }
    {
        match self.bearers.get(name) {
            Some(bearer) => Some(*bearer),
            None => None,
        }
    }
}

/// Who has a name that the node at this place has too.
fn one_more(before: Option<Bearer>, place: usize) -> Bearer
    ensures { result ≡ one_more before place }
{
    match before {
        None => Bearer::One(place),
        Some(_) => Bearer::Several,
    }
}
