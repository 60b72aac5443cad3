//! The search for one more path: breadth-first over residual steps (Even, SIAM J. Comput. 4, 1975).
ghost use Rattle.std.specs.Prelude.{◌<◌, length, slice_index, MatchBool};
ghost use Rattle.ov_split.specs.Places.{net_by_place};
ghost use Rattle.ov_flow.specs.Code.Reached.{IsGrown, IsMore, IsClean, IsSearchEnded};
ghost use Rattle.ov_flow.specs.Code.Reached.{IsSweptAt, IsVisited, IsSwept};
ghost use Rattle.ov_flow.specs.Code.Walked.{table_of, IsTable};
ghost use Rattle.ov_flow.specs.Code.Held.{IsReady, HasTreeRoom};

use crate::place_table::PlaceTable;
use crate::search_tree::{Tree, begin, reach};
use ov_graph::bit_rows::{has, put};
use ov_split::SplitNet;

/// Takes each link of the node at place `at` of the order. True: the last node reached is a target.
fn visit_links<const W: usize>(
    net: &SplitNet<'_, W>,
    from: &PlaceTable,
    tree: &mut Tree<W>,
    at: u16,
) -> bool
    requires ready { IsReady W net.now }
    requires table { IsTable (length net.now.graph.nodes) from.now }
    requires room { HasTreeRoom (length net.now.graph.nodes) tree.old }
    requires grown { IsGrown (net_by_place net.now) (table_of from.now) tree.old }
    requires clean { IsClean (net_by_place net.now) tree.old }
    requires at { at < length tree.old.order.items }
    ensures grown { IsGrown (net_by_place net.now) (table_of from.now) tree.new }
    ensures more { IsMore tree.old tree.new }
    ensures found { MatchBool result (IsSearchEnded (net_by_place net.now) tree.new)
        (IsSweptAt (net_by_place net.now) (slice_index tree.old.order.items at) tree.new) }
    ensures room { HasTreeRoom (length net.now.graph.nodes) tree.new }
{
    let x = tree.order[at as usize] as usize;
    let mut after = 0;
    while let Some(w) = net.next_outside(x, &tree.seen, after) {
        let node = from.tip(w as u16);
        reach(tree, at, Some(w as u16), node);
        put(&mut tree.seen, w);
        if has(net.targets(), node as usize) {
            return true;
        }
        after = w + 1;
    }
    false
}

/// Takes the step back from the node at place `at` of the order, if it is on a path: the path gives up its last step.
/// True: the last node reached is a target.
fn step_back<const W: usize>(
    net: &SplitNet<'_, W>,
    from: &PlaceTable,
    tree: &mut Tree<W>,
    at: u16,
) -> bool
    requires ready { IsReady W net.now }
    requires table { IsTable (length net.now.graph.nodes) from.now }
    requires room { HasTreeRoom (length net.now.graph.nodes) tree.old }
    requires grown { IsGrown (net_by_place net.now) (table_of from.now) tree.old }
    requires at { at < length tree.old.order.items }
    requires swept { IsSweptAt (net_by_place net.now) (slice_index tree.old.order.items at) tree.old }
    ensures grown { IsGrown (net_by_place net.now) (table_of from.now) tree.new }
    ensures more { IsMore tree.old tree.new }
    ensures found { MatchBool result (IsSearchEnded (net_by_place net.now) tree.new)
        (IsVisited (net_by_place net.now) (table_of from.now) (slice_index tree.old.order.items at) tree.new) }
    ensures room { HasTreeRoom (length net.now.graph.nodes) tree.new }
{
    if let Some(before) = from.get(tree.order[at as usize] as usize) {
        reach(tree, at, None, before);
        if has(net.targets(), before as usize) {
            return true;
        }
    }
    false
}

/// Takes each step from the node at place `at` of the order. True: the last node reached is a target.
fn visit<const W: usize>(
    net: &SplitNet<'_, W>,
    from: &PlaceTable,
    tree: &mut Tree<W>,
    at: u16,
) -> bool
    requires ready { IsReady W net.now }
    requires table { IsTable (length net.now.graph.nodes) from.now }
    requires room { HasTreeRoom (length net.now.graph.nodes) tree.old }
    requires grown { IsGrown (net_by_place net.now) (table_of from.now) tree.old }
    requires clean { IsClean (net_by_place net.now) tree.old }
    requires at { at < length tree.old.order.items }
    ensures grown { IsGrown (net_by_place net.now) (table_of from.now) tree.new }
    ensures more { IsMore tree.old tree.new }
    ensures found { MatchBool result (IsSearchEnded (net_by_place net.now) tree.new)
        (IsVisited (net_by_place net.now) (table_of from.now) (slice_index tree.old.order.items at) tree.new) }
    ensures room { HasTreeRoom (length net.now.graph.nodes) tree.new }
{
    if visit_links(net, from, tree, at) {
        return true;
    }
    step_back(net, from, tree, at)
}

/// Searches for a target. True: the last node reached is one.
pub(crate) fn search<const W: usize>(
    net: &SplitNet<'_, W>,
    from: &PlaceTable,
    tree: &mut Tree<W>,
) -> bool
    requires ready { IsReady W net.now }
    requires table { IsTable (length net.now.graph.nodes) from.now }
    requires room { HasTreeRoom (length net.now.graph.nodes) tree.old }
    ensures grown { IsGrown (net_by_place net.now) (table_of from.now) tree.new }
    ensures found { MatchBool result (IsSearchEnded (net_by_place net.now) tree.new)
        (IsSwept (net_by_place net.now) (table_of from.now) tree.new) }
    ensures room { HasTreeRoom (length net.now.graph.nodes) tree.new }
{
    begin(net, tree);
    let mut at: u16 = 0;
    while (at as usize) < tree.order.len() {
        if visit(net, from, tree, at) {
            return true;
        }
        at += 1;
    }
    false
}
