ghost use Rattle.std.specs.Prelude.{◌≡◌, ◌↔◌, ◌++◌, ℕ, IfOk, OnOk, OnErr, Some, IfSome, is_some, nat_eq, slice_get};
ghost use Rattle.std.specs.Option.{option_copied};
ghost use Rattle.std.specs.FinMap as map;
ghost use Rattle.indexmap.specs.IndexMap.{get, keys, values};
ghost use Rattle.ov_ids.specs.Members.{Has, Ascends};
ghost use Rattle.ov_net.specs.Code.LinkChanges.{IsLive, id_if_live};
ghost use Rattle.ov_net.specs.Code.Effects.{CanChange, NodeChanges};
ghost use Rattle.ov_net.specs.declared.planned_effects.NodeChange.TheVariants.{Follows};

use crate::boxed_plan::BoxedPlan;
use crate::member::Member;
use indexmap::IndexMap;
use ov_ids::{NodeId, OutOfMemory};
use std::alloc::Global;
use std::marker::Model;

/// The nodes that were born. Contracts see them as a finite map from ids.
#[derive(Drop)]
pub(crate) struct Nodes {
    members: IndexMap<NodeId, Member>,
}

impl Model for Nodes {
    ghost use Rattle.std.specs.Coded.{coded_ℕ};
    ghost use Rattle.std.specs.Ordering.{nat_cmp};
    ghost use Rattle.std.specs.FinMap as map;
    ghost use Rattle.ov_net.specs.contracts.member.Member as member;
    ghost use Rattle.ov_net.specs.declared.member.Member.{Member};

    ghost Value = { map.FinMap nat_cmp Member };

    ghost coded = { map.code coded_ℕ member.the_row.coded };

    ghost view = { λ a. map.from_entries a.members.entries };
}

impl Nodes {
    /// No nodes. Nothing is allocated.
    pub(crate) fn new(alloc: Global) -> Nodes
        ensures { result ≡ map.empty }
    {
        Nodes {
            members: IndexMap::new(alloc),
        }
    }

    /// How many nodes were born.
    pub(crate) fn len(&self) -> usize
        ensures { result ≡ map.len self.now }
    {
        self.members.len()
    }

    /// The place of the node with this id, if it was born. Ids often count births, from 1 on, so the place that the id
    /// then has is looked at first, and only then is the id hashed.
    #[inline(always)]
    fn place(members: &IndexMap<NodeId, Member>, id: NodeId) -> Option<usize>
        ensures key { IfSome result (λ i. slice_get (keys members.now) i ≡ Some id) }
        ensures value { IfSome result (λ i. slice_get (values members.now) i ≡ get nat_eq members.now id) }
        ensures found { is_some result ≡ is_some (get nat_eq members.now id) }
    {
        let guess = id.number().saturating_sub(1) as usize;
        if let Some((born, _)) = members.get_index(guess) {
            if *born == id {
                return Some(guess);
            }
        }
        members.get_index_of(&id)
    }

    /// The node with this id, if it was born.
    pub(crate) fn get(&self, id: NodeId) -> Option<&Member>
        ensures { option_copied result ≡ map.get self.now id }
    {
        match Nodes::place(&self.members, id) {
            Some(place) => Some(&self.members[place]),
            None => None,
        }
    }

    /// The live nodes, ascending.
    pub(crate) fn live_ids(&self, alloc: Global) -> Result<Vec<NodeId>, OutOfMemory>
        ensures ascend { IfOk result (λ ids. Ascends ids.items) }
        ensures each { IfOk result (λ ids. (a : ℕ) → Has ids.items a ↔ IsLive self.now a) }
    {
        let mut ids = live_by_birth(alloc, &self.members)?;
        ids.sort_unstable();
        ids.dedup();
        Ok(ids)
    }

    /// Has the live node with this id follow a plan, which is one for it. Out of memory, nothing changes.
    #[inline(always)]
    pub(crate) fn follow(&mut self, id: NodeId, plan: BoxedPlan) -> Result<(), OutOfMemory>
        requires { CanChange id (Follows plan) self.old }
        ensures ok { OnOk result (NodeChanges id (Follows plan) self.old self.new) }
        ensures err { OnErr result (self.new ≡ self.old) }
    {
        match Nodes::place(&self.members, id) {
            Some(place) => {
                let (_, member) = self.members.pair_mut(place);
                member.follow(plan)
            }
            None => unreachable!(),
        }
    }

    /// Stores a node under this id. Out of memory, nothing changes.
    pub(crate) fn put(&mut self, id: NodeId, member: Member) -> Result<(), OutOfMemory>
        ensures ok { OnOk result (self.new ≡ map.insert self.old id member) }
        ensures err { OnErr result (self.new ≡ self.old) }
    {
        self.members.insert(id, member)?;
        Ok(())
    }
}

/// The ids of the live ones among nodes, in the order of their births.
fn live_by_birth(
    alloc: Global,
    members: &IndexMap<NodeId, Member>,
) -> Result<Vec<NodeId>, OutOfMemory>
    ensures { IfOk result (λ ids. (a : ℕ)
        → Has ids.items a ↔ IsLive (map.from_entries members.now.entries) a) }
{
    let mut ids = Vec::new(alloc);
    for place in 0..members.len() {
        match members.get_index(place) {
            Some((id, member)) => add_if_live(&mut ids, *id, member)?,
            None => unreachable!(),
        }
    }
    Ok(ids)
}

/// Appends the id of a node, if it is alive.
fn add_if_live(ids: &mut Vec<NodeId>, id: NodeId, member: &Member) -> Result<(), OutOfMemory>
    ensures { OnOk result (ids.new.items ≡ ids.old.items ++ id_if_live id member.now) }
{
    if let Member::Live(_) = member {
        ids.push(id)?;
    }
    Ok(())
}
