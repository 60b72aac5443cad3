//! All that is seen of a world, and of a core.
use ov_even::GroupDesk;
use ov_ids::{IdsText, NodeId};
use ov_net::World;
use ov_snap::{Core, Report};
use std::alloc::{AllocError, Global};

/// Room for all that is told, so that it takes one allocation.
const ROOM: usize = 65_536;

/// The ids of the nodes of all stories are below this number.
const NODES: u32 = 10;

/// The moments of all stories are below this number.
const MOMENTS: u32 = 12;

/// How many desks a story opens, and how many workers a desk has, at most.
const DESKS_AND_WORKERS: u32 = 2;

/// A node's views and branches, and how many broadcasts it has made. Nothing of a node that does not live.
fn put_node(told: &mut String, world: &World, node: u32) -> Result<(), AllocError> {
    let Some(peer) = world.peer(NodeId(node)) else {
        return Ok(());
    };
    let made = peer.made();
    let (active, passive) = (IdsText(peer.active()), IdsText(peer.passive()));
    let (eager, lazy) = (IdsText(peer.eager()), IdsText(peer.lazy()));
    write!(
        told,
        "\nnode {node} made {made} active {active} passive {passive} eager {eager} lazy {lazy}"
    )
}

/// Appends the entries of the journal, whole.
fn put_journal(told: &mut String, world: &World) -> Result<(), AllocError> {
    for entry in world.journal() {
        write!(told, "\n{entry:?}")?;
    }
    Ok(())
}

/// Appends the packets on their way, with their bytes.
fn put_packets(told: &mut String, world: &World) -> Result<(), AllocError> {
    for packet in world.packets().iter() {
        write!(told, "\n{packet:?}")?;
    }
    Ok(())
}

/// Appends the journal, the packets, and the nodes.
fn put_world(told: &mut String, world: &World) -> Result<(), AllocError> {
    put_journal(told, world)?;
    put_packets(told, world)?;
    for node in 0..NODES {
        put_node(told, world, node)?;
    }
    Ok(())
}

/// Appends the nodes and the links of a moment, if a snapshot was taken then.
fn put_graph(told: &mut String, core: &Core, moment: u32) -> Result<(), AllocError> {
    let Ok(snapshot) = core.begin(moment) else {
        return Ok(());
    };
    let nodes = IdsText(snapshot.graph.nodes());
    write!(told, "\nnodes {nodes}")?;
    for link in snapshot.graph.links() {
        write!(told, " {link:?}")?;
    }
    Ok(())
}

/// Appends the certificate of a report, if there is one.
fn put_report(told: &mut String, report: Option<&Report>) -> Result<(), AllocError> {
    let Some(report) = report else {
        return Ok(());
    };
    let (moment, cert) = (report.moment(), report.checked().cert());
    write!(told, "\nreport {moment} {cert:?}")
}

/// Appends what is kept of a moment: its graph, and its reports for all nodes, for node 1, and for nodes 1 and 3.
fn put_moment(told: &mut String, core: &Core, moment: u32) -> Result<(), AllocError> {
    put_graph(told, core, moment)?;
    put_report(told, core.report(moment))?;
    put_report(told, core.group_report(moment, &[NodeId(1)]))?;
    put_report(told, core.group_report(moment, &[NodeId(1), NodeId(3)]))
}

/// The next turn of a worker at a desk.
fn next_turn(desk: &GroupDesk, worker: u32) -> &'static str {
    if !desk.has_worker(worker) {
        return "not there";
    }
    if desk.claims_next(worker) {
        return "claims";
    }
    if desk.looks_next(worker) {
        return "looks";
    }
    if desk.settles_next(worker) {
        return "settles";
    }
    "ended"
}

/// Appends what a desk shares out, the lowest number that failed, and the next turn of each worker.
fn put_desk(told: &mut String, core: &Core, place: u32) -> Result<(), AllocError> {
    let Some(desk) = core.desk(place) else {
        return Ok(());
    };
    let (moment, total, least) = (desk.moment(), desk.total(), desk.least());
    let members = IdsText(desk.members());
    write!(
        told,
        "\ndesk {place} of {moment}: {least} of {total} for {members}"
    )?;
    for worker in 0..DESKS_AND_WORKERS {
        let turn = next_turn(desk, worker);
        write!(told, " {turn}")?;
    }
    Ok(())
}

/// Appends what is kept of all moments.
fn put_moments(told: &mut String, core: &Core) -> Result<(), AllocError> {
    for moment in 0..MOMENTS {
        put_moment(told, core, moment)?;
    }
    Ok(())
}

/// What is seen of a world.
pub(crate) fn world_told(alloc: Global, world: &World) -> Result<String, AllocError> {
    let mut told = String::with_capacity(alloc, ROOM)?;
    put_world(&mut told, world)?;
    Ok(told)
}

/// What is seen of a core: its world, its moments with their reports, and its desks.
pub(crate) fn core_told(alloc: Global, core: &Core) -> Result<String, AllocError> {
    let mut told = String::with_capacity(alloc, ROOM)?;
    put_world(&mut told, core.world())?;
    put_moments(&mut told, core)?;
    for place in 0..DESKS_AND_WORKERS {
        put_desk(&mut told, core, place)?;
    }
    Ok(told)
}
