ghost use Rattle.std.specs.Prelude.{◌≡◌, ℕ, ◌-◌, ◌*◌, ◌<◌, length, slice_index, IfOk};
ghost use Rattle.ov_ids.specs.Members.{Has};
ghost use Rattle.ov_graph.specs.Row.{HasBit, word_bits};
ghost use Rattle.ov_split.specs.SplitNetState.{SplitNetState};
ghost use Rattle.ov_split.specs.Code.Residual.{Table};
ghost use Rattle.ov_split.specs.Places.{net_by_place};
ghost use Rattle.ov_flow.specs.Code.Reached.{IsStepBy, IsGrown, IsMore, IsClean};
ghost use Rattle.ov_flow.specs.Code.Held.{IsReady, IsRoomFor, HasTreeRoom, HasNodeRoom};

use ov_graph::bit_rows::{has, put};
use ov_split::SplitNet;
use std::alloc::{AllocError, Global};

/// The tree of a search: the reached nodes in the order of finding, for each the place of its parent in that order, and
/// the link that was taken to it (none for a step back). Links to the nodes in `seen` need not be taken any more.
#[derive(Drop)]
pub(crate) struct Tree<const W: usize> {
    pub order: Vec<u16>,
    pub parents: Vec<u16>,
    pub ways: Vec<Option<u16>>,
    pub reached: [u64; W],
    pub seen: [u64; W],
}

/// What a tree allocates.
#[derive(Drop)]
pub(crate) struct TreeRoom {
    pub order: Vec<u16>,
    pub parents: Vec<u16>,
    pub ways: Vec<Option<u16>>,
}

/// Room for this many nodes.
pub(crate) fn new_tree_room(alloc: Global, nodes: usize) -> Result<TreeRoom, AllocError>
    ensures { IfOk result (IsRoomFor nodes) }
{
    Ok(TreeRoom {
        order: Vec::with_capacity(alloc, nodes)?,
        parents: Vec::with_capacity(alloc, nodes)?,
        ways: Vec::with_capacity(alloc, nodes)?,
    })
}

/// An empty tree in this room.
pub(crate) fn tree_in<const W: usize>(room: TreeRoom) -> Tree<W>
    ensures { (nodes : ℕ) → IsRoomFor nodes room → HasTreeRoom nodes result }
{
    Tree {
        order: room.order,
        parents: room.parents,
        ways: room.ways,
        reached: [0; W],
        seen: [0; W],
    }
}

/// The set without places.
pub(crate) fn no_places<const W: usize>() -> [u64; W]
    ensures { (p : ℕ) → ¬ HasBit result p }
{
    [0; W]
}

/// Starts a search at the source.
pub(crate) fn begin<const W: usize>(net: &SplitNet<'_, W>, tree: &mut Tree<W>)
    requires ready { IsReady W net.now }
    requires room { HasTreeRoom (length net.now.graph.nodes) tree.old }
    ensures grown { (from : Table) → IsGrown (net_by_place net.now) from tree.new }
    ensures clean { IsClean (net_by_place net.now) tree.new }
    ensures room { HasTreeRoom (length net.now.graph.nodes) tree.new }
{
    let source = net.source();
    tree.order.clear();
    tree.parents.clear();
    tree.ways.clear();
    tree.reached = no_places();
    tree.seen = *net.avoided();
    put(&mut tree.seen, source);
    put(&mut tree.reached, source);
    tree.order.push_reserved(source as u16);
    tree.parents.push_reserved(0);
    tree.ways.push_reserved(None);
}

/// Adds a node, unless it is reached already. A step leads to it from the node at place `at` of the order.
pub(crate) fn reach<const W: usize>(tree: &mut Tree<W>, at: u16, way: Option<u16>, node: u16)
    requires at { at < length tree.old.order.items }
    requires node { node < word_bits * W }
    requires room { ¬ HasBit tree.old.reached node → HasNodeRoom tree.old }
    ensures grown { (n : SplitNetState) (from : Table) → IsGrown n from tree.old → Has n.graph.nodes node
        → IsStepBy n from (slice_index tree.old.order.items at) node way
        → IsGrown n from tree.new × Has tree.new.order.items node
        × (¬ Has tree.old.order.items node
        → slice_index tree.new.order.items (length tree.new.order.items - 1) ≡ node) }
    ensures more { IsMore tree.old tree.new }
    ensures only { (x : ℕ) → Has tree.new.order.items x → ¬ Has tree.old.order.items x → x ≡ node }
    ensures seen { tree.new.seen ≡ tree.old.seen }
    ensures room { (wide : ℕ) → HasTreeRoom wide tree.old → HasTreeRoom wide tree.new }
{
    if has(&tree.reached, node as usize) {
        return;
    }
    put(&mut tree.reached, node as usize);
    tree.order.push_reserved(node);
    tree.parents.push_reserved(at);
    tree.ways.push_reserved(way);
}
