ghost use Rattle.std.specs.Prelude.{◌≡◌, ◌++◌, ◌∷◌, None, Some, map, IfOk, OnOk};
ghost use Rattle.ov_wire.specs.Messages.{AreSendsInRange};
ghost use Rattle.ov_peer.specs.Faults.{fault_of, IsInputInRange};
ghost use Rattle.ov_peer.specs.PeerState.{newborn};
ghost use Rattle.ov_peer.specs.declared.input_and_output.Input.TheVariants.{Boot};
ghost use Rattle.ov_net.specs.Code.Effects.{AreEffectsOfPlan, AreEffectsOfBirth, PlansInput, SendFew, AreFew};
ghost use Rattle.ov_net.specs.NetStep.{change_at, DrawnStep};
ghost use Rattle.ov_net.specs.declared.planned_effects.NodeChange.TheVariants as change;
ghost use Rattle.ov_net.specs.declared.journal_entry_and_changes.Change.TheVariants.{Born};

use crate::boxed_live_peer::LivePeer;
use crate::boxed_plan::BoxedPlan;
use crate::journal_entry_and_changes::{Change, copy_delivery};
use crate::packet::Packet;
use crate::planned_effects::{Effects, NodeChange};
use ov_ids::{NodeId, OutOfMemory, Params, Seq};
use ov_peer::{Delivery, Input, Output, Peer, PeerFault, Plan};
use ov_views::ViewChange;
use ov_wire::Message;
use ov_words::Words;
use std::alloc::Global;

/// What a step of a node adds to its world: packets, changes for the journal, and what the node delivers.
#[derive(Drop)]
struct Additions {
    packets: Vec<Packet>,
    changes: Seq<Change>,
    delivery: Option<Delivery>,
}

/// The effects of a live node taking an input. The node is not changed; its change is returned as a plan. The packet
/// at the named place, if there is one, is taken out.
pub(crate) fn effects_of_input(
    alloc: Global,
    node: NodeId,
    taken: Option<usize>,
    peer: &Peer,
    input: Input,
    words: &Words,
) -> Result<Effects, OutOfMemory>
    requires range { IsInputInRange input }
    requires fault { fault_of peer.now input ≡ None }
    ensures effects { IfOk result (AreEffectsOfPlan node taken peer.now input words.now) }
    ensures few { IfOk result SendFew }
{
    let plan = plan_of(alloc, peer, input, words)?;
    let added = additions_of_plan(alloc, node, plan.as_plan())?;
    Ok(Effects {
        taken,
        node: Some((node, NodeChange::Follows(plan))),
        packets: added.packets,
        changes: added.changes,
        delivery: added.delivery,
    })
}

/// The plan by which a live node takes an input that it may take.
#[inline(always)]
fn plan_of(
    alloc: Global,
    peer: &Peer,
    input: Input,
    words: &Words,
) -> Result<BoxedPlan, OutOfMemory>
    requires range { IsInputInRange input }
    requires fault { fault_of peer.now input ≡ None }
    ensures planned { IfOk result (PlansInput peer.now input words.now) }
    ensures few { IfOk result (λ g. AreFew g.sends.items) }
    ensures ranges { IfOk result (λ g. AreSendsInRange g.sends.items) }
{
    match peer.plan(input, words) {
        Ok(plan) => BoxedPlan::new(alloc, plan),
        Err(PeerFault::OutOfMemory) => Err(OutOfMemory),
        Err(_) => unreachable!(),
    }
}

/// What a plan of a node sends and delivers, and how it changes the active view.
#[inline(always)]
fn additions_of_plan(alloc: Global, node: NodeId, plan: &Plan) -> Result<Additions, OutOfMemory>
    requires { AreSendsInRange plan.now.sends.items }
    ensures packets { IfOk result (λ b. b.packets.items ≡ plan.now.sends.items) }
    ensures changes { IfOk result (λ b. b.changes ≡ map (change_at node) plan.now.changes.items) }
    ensures delivery { IfOk result (λ b. b.delivery ≡ plan.now.delivered) }
{
    let packets = packets_of(alloc, &plan.sends)?;
    let changes = journal_changes(alloc, node, &plan.changes)?;
    let delivery = copy_delivery(alloc, &plan.delivered)?;
    Ok(Additions {
        packets,
        changes,
        delivery,
    })
}

/// The effects of a node's birth. It boots, by a contact if there is one.
pub(crate) fn effects_of_birth(
    alloc: Global,
    node: NodeId,
    params: Params,
    contact: Option<NodeId>,
    words: &Words,
) -> Result<Effects, OutOfMemory>
    ensures effects { IfOk result (AreEffectsOfBirth node (newborn node params) (Boot contact) words.now) }
    ensures few { IfOk result SendFew }
{
    let mut peer = Peer::new(alloc, node, params);
    let added = boot_newborn(alloc, node, &mut peer, contact, words)?;
    let peer = LivePeer::new(alloc, peer)?;
    Ok(Effects {
        taken: None,
        node: Some((node, NodeChange::Born(peer))),
        packets: added.packets,
        changes: added.changes,
        delivery: added.delivery,
    })
}

/// Boots a node that is being born. Returns what its first step and its birth add to the world.
#[inline(always)]
fn boot_newborn(
    alloc: Global,
    node: NodeId,
    peer: &mut Peer,
    contact: Option<NodeId>,
    words: &Words,
) -> Result<Additions, OutOfMemory>
    ensures effects { IfOk result (λ b. AreEffectsOfBirth node peer.old (Boot contact) words.now (record {
      taken = None;
      node = Some (node, change.Born peer.new);
      packets = b.packets;
      changes = b.changes;
      delivery = b.delivery;
    })) }
    ensures few { IfOk result (λ b. AreFew b.packets.items) }
{
    let output = boot(peer, contact, words)?;
    let packets = packets_of(alloc, &output.sends)?;
    let changes = birth_changes(alloc, node, &output.changes)?;
    Ok(Additions {
        packets,
        changes,
        delivery: output.delivered,
    })
}

/// Boots a node, by a contact if there is one.
fn boot(peer: &mut Peer, contact: Option<NodeId>, words: &Words) -> Result<Output, OutOfMemory>
    ensures steps { IfOk result (λ o. DrawnStep peer.old (Boot contact) words.now peer.new
        o.sends.items o.changes.items o.delivered) }
    ensures few { IfOk result (λ o. AreFew o.sends.items) }
    ensures ranges { IfOk result (λ o. AreSendsInRange o.sends.items) }
{
    match peer.step(Input::Boot(contact), words) {
        Ok(output) => Ok(output),
        Err(PeerFault::OutOfMemory) => Err(OutOfMemory),
        Err(_) => unreachable!(),
    }
}

/// These messages as packets.
fn packets_of(alloc: Global, sends: &[(NodeId, Message)]) -> Result<Vec<Packet>, OutOfMemory>
    requires { AreSendsInRange sends.now }
    ensures { IfOk result (λ v. v.items ≡ sends.now) }
{
    let mut packets = Vec::with_capacity(alloc, sends.len())?;
    for send in sends {
        packets.push(Packet::new(alloc, send.0, &send.1)?)?;
    }
    Ok(packets)
}

/// The changes of a node's active view, for the journal.
fn journal_changes(
    alloc: Global,
    node: NodeId,
    view_changes: &[ViewChange],
) -> Result<Seq<Change>, OutOfMemory>
    ensures { IfOk result (λ changes. changes ≡ map (change_at node) view_changes.now) }
{
    let mut changes = Vec::with_capacity(alloc, view_changes.len())?;
    add_changes(&mut changes, node, view_changes)?;
    Ok(Seq::new(changes))
}

/// The birth of a node and then the changes of its active view, for the journal.
fn birth_changes(
    alloc: Global,
    node: NodeId,
    view_changes: &[ViewChange],
) -> Result<Seq<Change>, OutOfMemory>
    ensures { IfOk result (λ changes. changes ≡ Born node ∷ map (change_at node) view_changes.now) }
{
    let mut changes = Vec::with_capacity(alloc, view_changes.len() + 1)?;
    changes.push(Change::Born(node))?;
    add_changes(&mut changes, node, view_changes)?;
    Ok(Seq::new(changes))
}

/// Appends the changes of a node's active view.
fn add_changes(
    changes: &mut Vec<Change>,
    node: NodeId,
    view_changes: &[ViewChange],
) -> Result<(), OutOfMemory>
    ensures { OnOk result (changes.new.items ≡ changes.old.items ++ map (change_at node) view_changes.now) }
{
    for change in view_changes {
        changes.push(change_at(node, *change))?;
    }
    Ok(())
}

/// A change of a node's active view, for the journal.
fn change_at(node: NodeId, change: ViewChange) -> Change
    ensures { result ≡ change_at node change }
{
    match change {
        ViewChange::Up(other) => Change::Up(node, other),
        ViewChange::Down(other) => Change::Down(node, other),
    }
}
