//! Pieces for which an allocation is refused. `dev/refuse-allocations` refuses each in turn.
ghost use Rattle.ov_graph.specs.Links.{IsGroup};

use crate::drawn::graph;
use crate::pieces::{ALL, GROUPS};
use crate::wanted::{Row, comes_to, is_piece, piece_of};
use ov_fans::{settle, settle_group};
use ov_graph::Graph;
use ov_ids::NodeId;
use ov_test_kit::ids;
use std::alloc::Global;
use std::process::Abort;
use std::test::Fail;

/// A piece of the group of all nodes comes to what it should, the second time if memory is refused the first time.
fn comes_right(
    rt: &(impl Abort + Print),
    alloc: Global,
    graph: &Graph,
    row: &Row<'_>,
) -> Result<(), Fail>
    requires { IsGroup graph.now graph.now.nodes }
{
    let (ask, want) = *row;
    let piece = piece_of(ask);
    if !is_piece(graph, graph.nodes(), piece) {
        return Err("a row without a piece".into());
    }
    if let Ok(settled) = settle(alloc, graph, piece) {
        assert!(rt; comes_to(alloc, graph, graph.nodes(), &settled, want)?);
        return Ok(());
    }
    let Ok(settled) = settle(alloc, graph, piece) else {
        return Err("memory was wanted twice".into());
    };
    assert!(rt; comes_to(alloc, graph, graph.nodes(), &settled, want)?);
    let _ = println!(rt; "seen: settle: refused 99, then the row's answer");
    Ok(())
}

/// All pieces of a graph come to what they should.
fn all_come_right(
    rt: &(impl Abort + Print),
    alloc: Global,
    graph: &Graph,
    rows: &[Row<'_>],
) -> Result<(), Fail> {
    if !graph.is_group(graph.nodes()) {
        return Err("a graph without nodes".into());
    }
    for row in rows {
        comes_right(rt, alloc, graph, row)?;
    }
    Ok(())
}

/// The same of a piece of a group.
fn comes_right_in_group(
    rt: &(impl Abort + Print),
    alloc: Global,
    graph: &Graph,
    group: &[NodeId],
    row: &Row<'_>,
) -> Result<(), Fail>
    requires { IsGroup graph.now group.now }
{
    let (ask, want) = *row;
    let piece = piece_of(ask);
    if !is_piece(graph, group, piece) {
        return Err("a row without a piece".into());
    }
    if let Ok(settled) = settle_group(alloc, graph, group, piece) {
        assert!(rt; comes_to(alloc, graph, group, &settled, want)?);
        return Ok(());
    }
    let Ok(settled) = settle_group(alloc, graph, group, piece) else {
        return Err("memory was wanted twice".into());
    };
    assert!(rt; comes_to(alloc, graph, group, &settled, want)?);
    let _ = println!(rt; "seen: settle_group: refused 99, then the row's answer");
    Ok(())
}

/// All pieces of a group come to what they should.
fn all_come_right_in_group(
    rt: &(impl Abort + Print),
    alloc: Global,
    graph: &Graph,
    group: &[NodeId],
    rows: &[Row<'_>],
) -> Result<(), Fail> {
    if !graph.is_group(group) {
        return Err("no group".into());
    }
    for row in rows {
        comes_right_in_group(rt, alloc, graph, group, row)?;
    }
    Ok(())
}

/// A piece for which memory is refused comes to what it should when it is settled again.
#[test]
fn out_of_memory_changes_no_piece(rt: HostRuntime) -> Result<(), Fail> {
    for (drawn, rows) in &ALL {
        all_come_right(&rt, rt.alloc(), &graph(rt.alloc(), *drawn)?, rows)?;
    }
    Ok(())
}

/// The same of the pieces of groups, the square's group of nodes 1 to 3 among them.
#[test]
fn out_of_memory_changes_no_piece_of_a_group(rt: HostRuntime) -> Result<(), Fail> {
    for (drawn, members, rows) in &GROUPS {
        let graph = graph(rt.alloc(), *drawn)?;
        let group = ids(rt.alloc(), members)?;
        all_come_right_in_group(&rt, rt.alloc(), &graph, group.as_slice(), rows)?;
    }
    Ok(())
}
