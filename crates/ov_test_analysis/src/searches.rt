//! Searches of one net, one path after another.
ghost use Rattle.std.specs.Prelude.{◌≡◌, IfSome};

use crate::drawn::{SQUARE, graph};
use crate::wanted::are_numbered;
use ov_flow::{Augmentation, CutRows, Flow};
use ov_graph::Graph;
use ov_graph::bit_rows::{EMPTY, Row, WORDS, agree, put};
use ov_ids::{NodeId, OutOfMemory};
use ov_lists::Paths;
use ov_split::SplitNet;
use std::alloc::Global;
use std::test::Fail;

/// The net from the third node of a graph to the first two.
fn from_third(graph: &Graph) -> Option<SplitNet<'_, WORDS>>
    ensures { IfSome result (λ net. net.graph ≡ graph.now) }
{
    if graph.nodes().len() < 3 {
        return None;
    }
    if graph.nodes().len() > Graph::MOST_NODES {
        return None;
    }
    let mut targets = EMPTY;
    put(&mut targets, 0);
    put(&mut targets, 1);
    Some(SplitNet::new(graph, None, 2, targets))
}

/// The row has these two places alone, which may be one.
fn has_alone(row: &Row, one: u8, other: u8) -> bool {
    let mut told = EMPTY;
    put(&mut told, one as usize);
    put(&mut told, other as usize);
    agree(row, &told, WORDS)
}

/// Of the square: the second and the fourth node part the third one from the first.
fn is_cut_of_square(rows: &CutRows<WORDS>) -> bool {
    has_alone(&rows.cut, 1, 3) && has_alone(&rows.side, 2, 2)
}

/// Two paths are found, and no third one.
fn seeks_two(alloc: Global, graph: &Graph) -> Result<bool, OutOfMemory> {
    let (Some(begun), Some(net)) = (from_third(graph), from_third(graph)) else {
        return Ok(false);
    };
    let mut flow = Flow::new(alloc, begun)?;
    if flow.seek(net, 2).is_some() || flow.held() != 2 {
        return Ok(false);
    }
    let Some(net) = from_third(graph) else {
        return Ok(false);
    };
    Ok(match flow.seek(net, 3) {
        Some(rows) => flow.held() == 2 && is_cut_of_square(&rows),
        None => false,
    })
}

/// These are the two paths of the square, which are 3-2 and 3-4-1, each with this end.
fn are_of_square(paths: &Paths, short: &[u32], long: &[u32]) -> bool {
    match (paths.get(0), paths.get(1)) {
        (Some(first), Some(second)) => {
            paths.len() == 2 && are_numbered(first, short) && are_numbered(second, long)
        }
        _ => false,
    }
}

/// The two paths are told by ids, as they are and with node 5 at their ends.
fn tells_two(alloc: Global, graph: &Graph) -> Result<bool, OutOfMemory> {
    let (Some(begun), Some(net)) = (from_third(graph), from_third(graph)) else {
        return Ok(false);
    };
    let mut flow = Flow::new(alloc, begun)?;
    if flow.seek(net, 2).is_some() {
        return Ok(false);
    }
    let paths = flow.paths()?;
    let plain = paths.by_ids(alloc, graph, None)?;
    let ended = paths.by_ids(alloc, graph, Some(NodeId(5)))?;
    Ok(
        paths.count() == 2
            && are_of_square(&plain, &[3, 2], &[3, 4, 1])
            && are_of_square(&ended, &[3, 2, 5], &[3, 4, 1, 5]),
    )
}

/// The flow grows twice, and then no more.
fn grows_twice(flow: &mut Flow<'_, WORDS>) -> bool {
    for held in 0..2 {
        if flow.held() != held {
            return false;
        }
        if let Augmentation::Stuck(_) = flow.augment() {
            return false;
        }
    }
    match flow.augment() {
        Augmentation::Stuck(rows) => flow.held() == 2 && is_cut_of_square(&rows),
        Augmentation::Grew => false,
    }
}

/// The flow of the square grows twice, one path after another.
fn grows(alloc: Global, graph: &Graph) -> Result<bool, OutOfMemory> {
    let Some(net) = from_third(graph) else {
        return Ok(false);
    };
    let mut flow = Flow::new(alloc, net)?;
    Ok(grows_twice(&mut flow))
}

#[test]
fn a_square_has_two_paths_from_3_to_1_and_2(rt: HostRuntime) -> Result<(), Fail> {
    let graph = graph(rt.alloc(), SQUARE)?;
    assert!(rt; grows(rt.alloc(), &graph)?);
    assert!(rt; seeks_two(rt.alloc(), &graph)?);
    assert!(rt; tells_two(rt.alloc(), &graph)?);
    Ok(())
}
