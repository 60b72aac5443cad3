//! What a run prints if an allocation is refused.
use ov_io::{Sink, Source};
use ov_run::{RunFault, run};
use std::alloc::AllocError;
use std::process::Abort;
use std::sync::Wait;
use std::test::Fail;
use std::thread::Threads;

/// A scenario, all that it prints, and what it prints where one of its lines is refused out of memory: that of the
/// scenario without this line, with `refused 99` in its place, from the first line to the last.
struct Story {
    scenario: &'static str,
    prints: &'static str,
    one_refused: &'static [&'static str],
}

static TWO_NODES_JOIN: Story = Story {
    scenario: "boot 1\nboot 2 by 1\ndeliver 0\nsnapshot\ndeliver 0\nsnapshot\n",
    prints: "entry 1 born 1\nentry 2 born 2\nentry 3 up 1 2\nentry 4\nentry 5 up 2 1\nentry 6\n",
    one_refused: &[
        "refused 99\nrefused 10\nrefused 14\nentry 1\nrefused 14\nentry 2\n",
        "entry 1 born 1\nrefused 99\nrefused 14\nentry 2\nrefused 14\nentry 3\n",
        "entry 1 born 1\nentry 2 born 2\nrefused 99\nentry 3\nentry 4 up 1 2\nentry 5\n",
        "entry 1 born 1\nentry 2 born 2\nentry 3 up 1 2\nrefused 99\nentry 4 up 2 1\nentry 5\n",
        "entry 1 born 1\nentry 2 born 2\nentry 3 up 1 2\nentry 4\nrefused 99\nentry 5\n",
        "entry 1 born 1\nentry 2 born 2\nentry 3 up 1 2\nentry 4\nentry 5 up 2 1\nrefused 99\n",
    ],
};

static ONE_NODE_IS_ANALYSED: Story = Story {
    scenario: "boot 1\nsnapshot\nanalyse 2\nshow 1\n",
    prints: "entry 1 born 1\nentry 2\nreport 2 linked k 0\nnode 1 active - passive - eager - lazy -\n",
    one_refused: &[
        "refused 99\nentry 1\nrefused 50\nrefused 10\n",
        "entry 1 born 1\nrefused 99\nrefused 50\nnode 1 active - passive - eager - lazy -\n",
        "entry 1 born 1\nentry 2\nrefused 99\nnode 1 active - passive - eager - lazy -\n",
    ],
};

/// What the sections do is counted: a boot that is refused is one of the two events.
static TWO_SECTIONS: Story = Story {
    scenario: "together\nboot 1\nalso\nboot 2\nend\nsnapshot\nanalyse 3\n",
    prints: "together 2 accepted 2 refused 0\nentry 3\nreport 3 split k 0 cut - near 2 far 1 side 2\n",
    one_refused: &[
        "together 2 accepted 1 refused 1\nentry 2\nrefused 50\n",
        "together 2 accepted 2 refused 0\nrefused 99\nrefused 50\n",
        "together 2 accepted 2 refused 0\nentry 3\nrefused 99\n",
    ],
};

/// What comes of a run.
#[derive(Clone, Copy, PartialEq, Eq)]
enum Came {
    /// All is printed.
    Whole,
    /// One line was refused out of memory, and all else is as without it.
    OneRefused,
    /// The run ended out of memory after the first lines of what it prints, or before any.
    CutOff,
    Neither,
}

impl Came {
    /// As `dev/refuse-allocations` counts it.
    fn told(self) -> &'static str {
        match self {
            Came::Whole => "whole",
            Came::OneRefused => "one line refused 99",
            Came::CutOff => "ended out of memory",
            Came::Neither => "neither",
        }
    }
}

/// Whether one line was refused out of memory, and all else is as without it.
fn has_refused(written: &[u8], story: &Story) -> bool {
    for text in story.one_refused {
        if text.as_bytes() == written {
            return true;
        }
    }
    false
}

/// Whether these are whole lines, the first ones of what is printed, or none.
fn is_cut_off(written: &[u8], story: &Story) -> bool {
    let ends_a_line = written.is_empty() || written.ends_with(b"\n");
    ends_a_line && story.prints.as_bytes().starts_with(written)
}

/// What came of a run that answered so and wrote this.
fn how_it_came(answer: Result<u8, RunFault>, written: &[u8], story: &Story) -> Came {
    if answer == Ok(0) && written == story.prints.as_bytes() {
        return Came::Whole;
    }
    if answer == Ok(0) && has_refused(written, story) {
        return Came::OneRefused;
    }
    if answer == Err(RunFault::OutOfMemory) && is_cut_off(written, story) {
        return Came::CutOff;
    }
    Came::Neither
}

/// Runs a scenario with a writer that has room.
fn came_of(
    rt: &(impl AllocGlobal + Threads + Wait + Sync),
    story: &Story,
) -> Result<Came, AllocError> {
    let mut sink = Sink::new(Vec::with_capacity(rt.alloc(), 256)?);
    let mut source = Source::new(story.scenario.as_bytes());
    let answer = run(rt, rt.alloc(), &mut source, &mut sink);
    Ok(how_it_came(answer, &sink.into_writer(), story))
}

/// Where an allocation is refused in a run, one line is refused and all else is as without it, or the run is cut off.
/// It prints all when it is made once more.
fn goes(
    rt: &(impl AllocGlobal + Threads + Wait + Sync + Print + Abort),
    name: &str,
    story: &Story,
) -> Result<(), Fail> {
    let first = came_of(rt, story)?;
    if first == Came::Whole {
        return Ok(());
    }
    let told = first.told();
    let _ = println!(rt; "seen: {name}: {told}");
    assert!(rt; first != Came::Neither);
    assert!(rt; came_of(rt, story)? == Came::Whole);
    Ok(())
}

#[test]
fn out_of_memory_refuses_one_event_or_ends_the_run(rt: HostRuntime) -> Result<(), Fail> {
    goes(&rt, "join", &TWO_NODES_JOIN)
}

/// The same of a scenario with an analysis.
#[test]
fn out_of_memory_refuses_an_analysis_or_ends_the_run(rt: HostRuntime) -> Result<(), Fail> {
    goes(&rt, "analyse", &ONE_NODE_IS_ANALYSED)
}

/// The same of a scenario with sections, whose drivers run in threads.
#[test]
fn out_of_memory_refuses_a_line_of_a_section_or_ends_the_run(rt: HostRuntime) -> Result<(), Fail> {
    goes(&rt, "sections", &TWO_SECTIONS)
}
