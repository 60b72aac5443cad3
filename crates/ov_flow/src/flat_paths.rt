ghost use Rattle.std.specs.Prelude.{◌≡◌, ◌≢◌, ◌≤◌, ◌<◌, ◌*◌, ℕ, map, reverse, length, OnOk, IfOk};
ghost use Rattle.ov_ids.specs.Members.{Has};
ghost use Rattle.ov_graph.specs.Links.{most_of_any_graph};
ghost use Rattle.ov_graph.specs.Paths.{node_at};
ghost use Rattle.ov_split.specs.SplitNetState.{IsFanOf};
ghost use Rattle.ov_flow.specs.Flow.{ArePlaces, ended_by, places_on};
ghost use Rattle.ov_split.specs.Code.Residual.{AreHeld, IsFlow};
ghost use Rattle.ov_split.specs.Places.{net_by_place};
ghost use Rattle.ov_flow.specs.Code.Walked.{table_of, IsTable, IsWritten};
ghost use Rattle.ov_flow.specs.Code.Held.{IsReady};

use crate::backward_paths::PathsBackwards;
use crate::paths_out_of_flat_list::{count_paths, push_by_ids, source_in, split_path};
use crate::place_table::PlaceTable;
use ov_graph::Graph;
use ov_ids::{NodeId, OutOfMemory};
use ov_lists::{Paths, PathsBuilder};
use ov_split::SplitNet;
use std::alloc::{AllocError, Global};
use std::marker::Model;

/// Paths from one source, in one flat list of places. Each is written from its end back to the source, so that the
/// source separates it from the next. Contracts see the paths, each from the source to its end.
#[derive(Drop)]
pub struct PlacePaths {
    flat: Vec<u16>,
}

impl Model for PlacePaths {
    ghost use Rattle.std.specs.Prelude.{List, ℕ};
    ghost use Rattle.ov_flow.specs.Code.Flat.{paths_in};

    ghost Value = { List (List ℕ) };

    ghost view = { λ p. paths_in p.flat.items };
}

impl PlacePaths {
    /// How many paths there are.
    pub fn count(&self) -> usize
        ensures { result ≡ length self.now }
    {
        count_paths(&self.flat)
    }

    /// How many places all paths have together.
    pub fn places(&self) -> usize
        ensures { result ≡ places_on self.now }
    {
        self.flat.len()
    }

    /// The paths one after another, each as its places from its end back to the source.
    pub fn backwards(&self) -> PathsBackwards<'_>
        ensures { result ≡ map reverse self.now }
    {
        PathsBackwards::new(&self.flat)
    }

    /// The paths by ids, each from the source to its end, and then `last` if one is given. The time is linear in the
    /// total length of the paths. OutOfMemory (99) if an allocation is refused.
    pub fn by_ids(
        &self,
        alloc: Global,
        graph: &Graph,
        last: Option<NodeId>,
    ) -> Result<Paths, OutOfMemory>
        requires { ArePlaces graph.now self.now }
        ensures { IfOk result (λ ps. ps ≡ map (λ path. ended_by last (map (node_at graph.now) path)) self.now) }
    {
        let source = source_in(&self.flat);
        let nodes = graph.nodes();
        let count = count_paths(&self.flat);
        let more = if last.is_some() { count } else { 0 };
        let mut paths = PathsBuilder::with_capacity(alloc, count, self.flat.len() + more)?;
        let mut left = self.flat.as_slice();
        while let Some((path, rest)) = split_path(left, source) {
            push_by_ids(&mut paths, nodes, path, last)?;
            left = rest;
        }
        Ok(paths.finish())
    }
}

/// How many places the path to `end` has, without the source.
fn places_to(from: &PlaceTable, end: u16) -> usize
    requires table { IsTable (length from.now) from.now }
    requires end { end < length from.now }
    ensures { result ≤ length from.now }
{
    let mut at = end as usize;
    for step in 0..from.len() {
        match from.get(at) {
            Some(before) => at = before as usize,
            None => return step,
        }
    }
    from.len()
}

/// From how many places for each path on a path is followed sooner than all of the table is gone through.
const SPARSE: usize = 64;

/// How many places all paths to the ends have, without the source.
fn used(from: &PlaceTable, ends: &[u16]) -> usize
    requires table { IsTable (length from.now) from.now }
    requires few { length from.now ≤ most_of_any_graph }
    requires ends { (e : ℕ) → Has ends.now e → e < length from.now }
    requires few_ends { length ends.now ≤ length from.now }
    ensures { result ≤ most_of_any_graph * most_of_any_graph }
{
    if from.len() / SPARSE <= ends.len() {
        return from.used();
    }
    let mut count = 0;
    for end in ends.iter() {
        count += places_to(from, *end);
    }
    count
}

/// Writes the path to `end`, from there back to the source.
fn write_path<const W: usize>(
    net: &SplitNet<'_, W>,
    from: &PlaceTable,
    ends: &[u16],
    end: u16,
    flat: &mut Vec<u16>,
) -> Result<(), AllocError>
    requires ready { IsReady W net.now }
    requires from { length from.now ≡ length net.now.graph.nodes }
    requires held { AreHeld (net_by_place net.now) (table_of from.now) ends.now }
    requires end { Has ends.now end }
    requires apart { end ≢ (net_by_place net.now).source }
    ensures { OnOk result
        (IsWritten (net_by_place net.now) (table_of from.now) flat.old.items flat.new.items end) }
{
    let source = net.source() as u16;
    let mut at = end;
    while at != source {
        flat.push(at)?;
        at = from.before(at as usize);
    }
    flat.push(source)?;
    Ok(())
}

/// Writes the paths that are held into a flat list. The list has room for each place on a path, and for the source once
/// for each path, so it does not grow.
pub(crate) fn write_paths<const W: usize>(
    alloc: Global,
    net: &SplitNet<'_, W>,
    from: &PlaceTable,
    ends: &[u16],
) -> Result<PlacePaths, AllocError>
    requires ready { IsReady W net.now }
    requires from { length from.now ≡ length net.now.graph.nodes }
    requires flow { IsFlow (net_by_place net.now) (table_of from.now) ends.now }
    ensures { IfOk result (λ ps. IsFanOf (net_by_place net.now) (length ends.now) ps) }
{
    let mut flat = Vec::with_capacity(alloc, used(from, ends) + ends.len())?;
    for end in ends.iter() {
        write_path(net, from, ends, *end, &mut flat)?;
    }
    Ok(PlacePaths { flat })
}
