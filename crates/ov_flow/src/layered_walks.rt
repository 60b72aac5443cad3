//! The walks through the layers of one search, found depth-first one after another: Dinic's phases, as Even and Tarjan
//! use them for node-disjoint paths (SIAM J. Comput. 4, 1975, "Network flow and testing graph connectivity").
ghost use Rattle.std.specs.Prelude.{◌≡◌, ◌≢◌, ◌+◌, ◌*◌, ◌<◌, ◌≤◌, true, length, IfSome, vec_capacity};
ghost use Rattle.ov_ids.specs.Members.{Has};
ghost use Rattle.ov_graph.specs.Row.{HasBit, word_bits};
ghost use Rattle.ov_split.specs.Places.{net_by_place};
ghost use Rattle.ov_split.specs.Code.Residual.{IsTidy};
ghost use Rattle.ov_flow.specs.Code.Reached.{IsTreeOf};
ghost use Rattle.ov_flow.specs.Code.Walked.{table_of, IsTable, IsWalkBy, end_of, IsNextHop};
ghost use Rattle.ov_flow.specs.Code.Held.{IsReady, IsWorkOf, IsOpenWorkOf};

use crate::augmenting_paths::Work;
use crate::layers::{Layers, set_layers};
use crate::path_table::keep_paths;
use crate::place_table::PlaceTable;
use crate::walk_augmentation::{Hop, take_hops};
use ov_graph::bit_rows::{clear, has, put};
use ov_split::SplitNet;

/// Takes more walks through the layers of the last search, until `level` paths are held or no walk is left. The last
/// search found a target, and its walk is taken already.
pub(crate) fn take_more<const W: usize>(net: &SplitNet<'_, W>, level: usize, work: &mut Work<W>)
    requires ready { IsReady W net.now }
    requires work { IsWorkOf net.now work.old }
    requires grown { IsTreeOf (net_by_place net.now) work.old.tree }
    requires few { length work.old.ends.items ≤ level }
    ensures work { IsWorkOf net.now work.new }
    ensures few { length work.new.ends.items ≤ level }
    ensures more { length work.old.ends.items ≤ length work.new.ends.items }
{
    if work.ends.len() >= level {
        return;
    }
    if !set_layers(net, &work.tree, &work.ends, &mut work.layers) {
        return;
    }
    if !take_walks(net, level, work) {
        keep_paths(net, &mut work.from, &mut work.next, &work.ends);
    }
}

/// Takes walks until `level` paths are held or no walk is left. True: no walk met a path, so each place in the table is
/// still on a path to an end.
fn take_walks<const W: usize>(net: &SplitNet<'_, W>, level: usize, work: &mut Work<W>) -> bool
    requires ready { IsReady W net.now }
    requires work { IsWorkOf net.now work.old }
    requires source { HasBit work.old.layers.visited (net_by_place net.now).source }
    requires few { length work.old.ends.items ≤ level }
    ensures work { IsOpenWorkOf net.now work.new }
    ensures tidy { result ≡ true → IsTidy (table_of work.new.from) work.new.ends.items }
    ensures few { length work.new.ends.items ≤ level }
    ensures more { length work.old.ends.items ≤ length work.new.ends.items }
{
    let mut tidy = true;
    while work.ends.len() < level {
        let Some(target) = find_walk(net, &work.from, &mut work.hops, &mut work.layers) else {
            return tidy;
        };
        if !take_walk(net, target, work) {
            tidy = false;
        }
    }
    tidy
}

/// Takes the walk to one more end. True: the walk met no path.
fn take_walk<const W: usize>(net: &SplitNet<'_, W>, target: u16, work: &mut Work<W>) -> bool
    requires ready { IsReady W net.now }
    requires work { IsOpenWorkOf net.now work.old }
    requires walk { IsWalkBy (net_by_place net.now) (table_of work.old.from) work.old.hops.items target }
    requires target { Has (net_by_place net.now).targets target }
    ensures work { IsOpenWorkOf net.now work.new }
    ensures tidy { result ≡ true → IsTidy (table_of work.old.from) work.old.ends.items
        → IsTidy (table_of work.new.from) work.new.ends.items }
    ensures one { length work.new.ends.items ≡ length work.old.ends.items + 1 }
    ensures layers { work.new.layers ≡ work.old.layers }
{
    work.ends.push_reserved(target);
    take_hops(net, &mut work.from, &work.hops, target)
}

/// Finds a walk from the source to a target, depth-first through the layers. The result is the target.
fn find_walk<const W: usize>(
    net: &SplitNet<'_, W>,
    from: &PlaceTable,
    hops: &mut Vec<Hop>,
    layers: &mut Layers<W>,
) -> Option<u16>
    requires ready { IsReady W net.now }
    requires table { IsTable (length net.now.graph.nodes) from.now }
    requires room { length net.now.graph.nodes ≤ vec_capacity hops.old }
    requires source { HasBit layers.old.visited (net_by_place net.now).source }
    ensures walk { IfSome result (λ t. IsWalkBy (net_by_place net.now) (table_of from.now) hops.new.items t) }
    ensures target { IfSome result (λ t. Has (net_by_place net.now).targets t) }
    ensures room { vec_capacity hops.new ≡ vec_capacity hops.old }
    ensures source { HasBit layers.new.visited (net_by_place net.now).source }
{
    let source = net.source() as u16;
    hops.clear();
    for turn in 0..2 * net.places() {
        let at = last_node(hops, source);
        match next_hop(net, from, at, hops.len(), layers) {
            Some(hop) => {
                put(&mut layers.visited, hop.node as usize);
                hops.push_reserved(hop);
                if has(net.targets(), hop.node as usize) {
                    return Some(hop.node);
                }
            }
            None => {
                if hops.pop().is_none() {
                    return None;
                }
            }
        }
    }
    None
}

/// The node to which steps from the source lead.
fn last_node(hops: &[Hop], source: u16) -> u16
    ensures { result ≡ end_of source hops.now }
{
    match hops.last() {
        Some(hop) => hop.node,
        None => source,
    }
}

/// The next step from a node at this depth, to a node that is not visited. No later walk takes this step.
fn next_hop<const W: usize>(
    net: &SplitNet<'_, W>,
    from: &PlaceTable,
    at: u16,
    depth: usize,
    layers: &mut Layers<W>,
) -> Option<Hop>
    requires ready { IsReady W net.now }
    requires table { IsTable (length net.now.graph.nodes) from.now }
    requires at { at < length net.now.graph.nodes }
    ensures hop { IfSome result (IsNextHop (net_by_place net.now) (table_of from.now) at layers.old.visited) }
    ensures visited { layers.new.visited ≡ layers.old.visited }
{
    if depth < layers.links.len() {
        let found = next_link(net, from, at, depth, layers);
        if found.is_some() {
            return found;
        }
    }
    next_back(net, from, at, layers)
}

/// The next step by a link.
fn next_link<const W: usize>(
    net: &SplitNet<'_, W>,
    from: &PlaceTable,
    at: u16,
    depth: usize,
    layers: &mut Layers<W>,
) -> Option<Hop>
    requires ready { IsReady W net.now }
    requires table { IsTable (length net.now.graph.nodes) from.now }
    requires at { at < length net.now.graph.nodes }
    requires depth { depth < length layers.old.links.items }
    ensures hop { IfSome result (IsNextHop (net_by_place net.now) (table_of from.now) at layers.old.visited) }
    ensures visited { layers.new.visited ≡ layers.old.visited }
{
    let mut after = onward_from(&layers.onward, at).min(net.places());
    while let Some(w) = net.next_within(at as usize, &layers.links[depth], after) {
        clear(&mut layers.links[depth], w);
        let way = w as u16;
        go_onward(&mut layers.onward, at, way);
        let node = from.tip(way);
        if may_take(net, w) && !has(&layers.visited, node as usize) {
            return Some(Hop {
                node,
                way: Some(way),
            });
        }
        after = w + 1;
    }
    None
}

/// The place to which the last link led that was tried from a node, or 0.
fn onward_from(onward: &PlaceTable, at: u16) -> usize {
    if at as usize >= onward.len() {
        return 0;
    }
    match onward.get(at as usize) {
        Some(w) => w as usize,
        None => 0,
    }
}

/// Keeps the last link that was tried from a node.
fn go_onward(onward: &mut PlaceTable, at: u16, w: u16) {
    if (at as usize) < onward.len() {
        onward.set(at as usize, w);
    }
}

/// Whether links to a node may be taken: it is neither the source nor avoided.
fn may_take<const W: usize>(net: &SplitNet<'_, W>, w: usize) -> bool
    requires { w < word_bits * W }
    ensures { result ≡ true → (w ≢ (net_by_place net.now).source) × ¬ Has (net_by_place net.now).avoided w }
{
    w != net.source() && !has(net.avoided(), w)
}

/// The step back along a path.
fn next_back<const W: usize>(
    net: &SplitNet<'_, W>,
    from: &PlaceTable,
    at: u16,
    layers: &mut Layers<W>,
) -> Option<Hop>
    requires ready { IsReady W net.now }
    requires table { IsTable (length net.now.graph.nodes) from.now }
    requires at { at < length net.now.graph.nodes }
    ensures hop { IfSome result (IsNextHop (net_by_place net.now) (table_of from.now) at layers.old.visited) }
    ensures visited { layers.new.visited ≡ layers.old.visited }
{
    if !has(&layers.backs, at as usize) {
        return None;
    }
    clear(&mut layers.backs, at as usize);
    let Some(node) = from.get(at as usize) else {
        return None;
    };
    if has(&layers.visited, node as usize) {
        return None;
    }
    Some(Hop { node, way: None })
}
