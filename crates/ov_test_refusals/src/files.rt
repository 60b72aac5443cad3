//! The file of the square's certificate, written as it is made.
use crate::square_groups::square;
use ov_certwriter::{CertificateWriteFault, place_answer, write_certificate};
use ov_crew::{OpenGate, settle_group_watched};
use ov_even::Unwatched;
use ov_ids::Workers;
use ov_io::Sink;
use std::alloc::Global;
use std::test::Fail;
use std::thread::Threads;

/// What stands in front of the file.
const FRONT: &[u8] = b"front\n";

/// The file, for moment 3.
pub(crate) const FILE: &str =
    r#"{"cut":[2,4],"fans":[{"j":3,"paths":[[3,2],[3,4,1]]},{"j":4,"paths":[[4,1],[4,3]]}],"far":3,"k":2,"links":[[1,2],[1,4],[2,3],[3,4]],"moment":3,"near":1,"nodes":[1,2,3,4],"pairs":[],"side":[1],"verdict":"split","version":1}"#;

/// Room for all that is written, so that writing allocates nothing.
const ROOM: usize = 4096;

/// What a call answered, and what it wrote.
#[derive(Drop)]
struct Written {
    answer: Result<(), CertificateWriteFault>,
    bytes: Vec<u8>,
}

impl Written {
    /// All was written.
    fn is_whole(&self) -> bool {
        let file = self.bytes.strip_prefix(FRONT);
        self.answer.is_ok() && file == Some(FILE.as_bytes())
    }

    /// Memory was refused, and nothing was written.
    fn is_refused(&self) -> bool {
        self.answer == Err(CertificateWriteFault::OutOfMemory) && self.bytes.is_empty()
    }
}

/// The file, written by so many workers.
fn file_by<R: Threads + Sync>(rt: &R, alloc: Global, count: u32) -> Result<Written, Fail> {
    let graph = square(alloc)?;
    let group = graph.nodes();
    let one = Workers::ONE;
    let hauls = settle_group_watched(rt, alloc, &graph, group, one, &OpenGate, &mut Unwatched)?;
    let placed = place_answer(alloc, &graph, group, &hauls)?;
    let workers = Workers::new(count).ok_or("a number of workers")?;
    let mut sink = Sink::new(Vec::with_capacity(alloc, ROOM)?);
    let answer = write_certificate(rt, alloc, workers, FRONT, &placed, 3, &mut sink);
    let bytes = sink.into_writer();
    Ok(Written { answer, bytes })
}

/// If an allocation is refused while the file is written, nothing is written. The same call, made again, writes it.
#[test]
fn out_of_memory_writes_nothing(rt: HostRuntime) -> Result<(), Fail> {
    for count in [1, 2] {
        let first = file_by(&rt, rt.alloc(), count)?;
        if first.is_whole() {
            continue;
        }
        assert!(rt; first.is_refused());
        assert!(rt; file_by(&rt, rt.alloc(), count)?.is_whole());
        let _ = println!(rt; "seen: write by {count}: refused 99, nothing written, then the file");
    }
    Ok(())
}
