//! That the watcher of an analysis of a graph file sees how far it has come, with the certificate and without it, and
//! is told how many ids the paths of the certificate have before anything is written.
use ov_answers::{AnswerWatcher, ReportOrRefusal, RunFault, analyse_bytes};
use ov_even::Watcher;
use ov_graph::SizeLimit;
use ov_ids::{NodeId, Workers};
use ov_io::Sink;
use ov_test_kit::FailsOnce;
use std::thread::Threads;

/// Two triangles that share the node 3, and what is printed of them, without a certificate.
const TRIANGLES: &str = "node 1\nnode 2\nnode 3\nnode 4\nnode 5\n\
    link 1 2\nlink 1 3\nlink 2 3\nlink 3 4\nlink 3 5\nlink 4 5\n";

const ANSWER: &[u8] = b"report 0 split k 1 cut 3 near 4 far 1 side 4,5\n";

/// The members of the group, which are all nodes.
const MEMBERS: usize = 5;

/// Counts the pieces and the certificates that it is told of.
#[derive(Drop)]
struct Pieces {
    told: u64,
    /// Each place is one of its level, whose number of pieces was told too.
    is_right: bool,
    certificates: u64,
}

/// The number of pieces of a level: a pair for every two of the first `level` members, and a fan for each later one.
fn level_size(level: usize) -> usize {
    let pairs = level.saturating_mul(level.saturating_sub(1)) / 2;
    pairs.saturating_add(MEMBERS.saturating_sub(level))
}

impl Watcher for Pieces {
    fn sees(&mut self, level: usize, place: usize, size: usize) {
        self.told = self.told.saturating_add(1);
        if place >= size || size != level_size(level) {
            self.is_right = false;
        }
    }
}

impl AnswerWatcher for Pieces {
    fn writes(&mut self, _ids: u64, _highest: NodeId) {
        self.certificates = self.certificates.saturating_add(1);
    }
}

/// Whether the watcher of an analysis of the triangles is told of pieces, each rightly, and of a certificate once if it
/// is asked for; and the answer is printed.
fn is_told(rt: &(impl AllocGlobal + Threads + Sync), certificate: bool) -> bool {
    let mut pieces = Pieces {
        told: 0,
        is_right: true,
        certificates: 0,
    };
    let mut sink = Sink::new(Vec::new(rt.alloc()));
    let answered = analyse_bytes(
        rt,
        rt.alloc(),
        SizeLimit::Usual,
        TRIANGLES.as_bytes(),
        &mut sink,
        None,
        Workers::ONE,
        certificate,
        &mut pieces,
    );
    let is_printed = sink.into_writer().starts_with(ANSWER);
    answered == Ok(ReportOrRefusal::Report { k: 1 })
        && is_printed
        && pieces.told > 0
        && pieces.is_right
        && pieces.certificates == u64::from(certificate)
}

#[test]
fn a_watcher_is_told_of_pieces(rt: HostRuntime) {
    assert!(rt; is_told(&rt, false));
    assert!(rt; is_told(&rt, true));
}

/// A graph file, how many ids the paths of its certificate have, and the highest id.
struct Sized {
    text: &'static str,
    ids: u64,
    highest: u32,
}

/// Each member of the triangles is linked to one below it, so the four fans have a path of 2 ids each. In the square
/// 1 and 2 are not linked: their two paths have 3 ids each, and the two fans, of 3 and of 4, two paths of 2. Two linked
/// nodes have no paths.
const SIZED: [Sized; 3] = [
    Sized {
        text: TRIANGLES,
        ids: 8,
        highest: 5,
    },
    Sized {
        text: "node 1\nnode 2\nnode 3\nnode 4\nlink 1 3\nlink 1 4\nlink 2 3\nlink 2 4\n",
        ids: 14,
        highest: 4,
    },
    Sized {
        text: "node 7\nnode 900\nlink 7 900\n",
        ids: 0,
        highest: 900,
    },
];

/// Keeps what it is told of the certificate.
#[derive(Drop)]
struct Size {
    told: u64,
    ids: u64,
    highest: u32,
}

impl Watcher for Size {
    fn sees(&mut self, _level: usize, _place: usize, _size: usize) {}
}

impl AnswerWatcher for Size {
    fn writes(&mut self, ids: u64, highest: NodeId) {
        self.told = self.told.saturating_add(1);
        self.ids = ids;
        self.highest = highest.number();
    }
}

/// Whether the watcher is told once of the certificate of this graph file, rightly, although the writer takes nothing.
fn is_sized(rt: &(impl AllocGlobal + Threads + Sync), row: &Sized) -> bool {
    let mut size = Size {
        told: 0,
        ids: 0,
        highest: 0,
    };
    let mut sink = Sink::new(FailsOnce::new(rt.alloc(), &[], 0, None));
    let answered = analyse_bytes(
        rt,
        rt.alloc(),
        SizeLimit::Usual,
        row.text.as_bytes(),
        &mut sink,
        None,
        Workers::ONE,
        true,
        &mut size,
    );
    answered == Err(RunFault::Write)
        && size.told == 1
        && size.ids == row.ids
        && size.highest == row.highest
}

#[test]
fn a_watcher_is_told_the_size_of_a_certificate(rt: HostRuntime) {
    for row in &SIZED {
        assert!(rt; is_sized(&rt, row));
    }
}
