use crate::name::Name;
use ov_graph::{Graph, SizeLimit};
use ov_ids::Seq;

/// A name that has an entry of its own.
#[derive(Drop)]
pub struct HostEntry {
    /// The line on which it is, counted from 1. In a JSON object, the number of the entry, counted from 1.
    pub at: u64,
    pub name: Name,
}

/// One name lists another as its peer.
#[derive(Drop)]
pub struct Listing {
    /// The line on which this is, counted from 1. In a JSON object, the number of the entry, counted from 1.
    pub at: u64,
    /// Who lists the other.
    pub from: Name,
    /// Who is listed.
    pub to: Name,
}

/// What a dump says: the entries in their order, and then the listings in theirs.
#[derive(Drop)]
pub struct Dump {
    pub entries: Seq<HostEntry>,
    pub listings: Seq<Listing>,
}

/// Which names and which links a graph takes from a dump, and how many nodes it may have.
#[derive(Clone, Copy)]
pub struct Choice {
    /// Two names are linked if one lists the other. If this is false, each must list the other.
    pub either: bool,
    /// Only names that have an entry are nodes. If this is false, all names are.
    pub entries_only: bool,
    /// How many nodes the graph may have.
    pub limit: SizeLimit,
}

/// The graph that follows from a dump.
#[derive(Drop)]
pub struct NamedGraph {
    /// Its nodes are 1, 2 and so on, one for each name.
    pub graph: Graph,
    /// The names of its nodes, in the order of the nodes. Up to 1,024 names ascend, byte by byte. More are scattered.
    pub names: Seq<Name>,
}
