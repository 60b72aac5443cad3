ghost use Rattle.std.specs.Prelude.{◌≡◌, ◌++◌, ◌∷◌, [], ℕ, List, IfOk, OnOk};
ghost use Rattle.ov_graphfile.specs.GraphFiles.{AreFirstOf, unread_lines};

use crate::fault::UnreadLine;
use crate::graph_line::read_graph_line;
use ov_ids::OutOfMemory;
use ov_lines::KeptLines;
use std::alloc::Global;

/// Lines of a graph file that can't be read: the first of them, and how many there are.
#[derive(Drop)]
pub struct UnreadLines {
    /// The first of them, in order.
    pub first: Vec<UnreadLine>,
    /// How many there are in all.
    pub count: usize,
}

impl UnreadLines {
    /// All lines can be read. Nothing is allocated.
    fn none(alloc: Global) -> UnreadLines
        ensures first { result.first.items ≡ [] }
        ensures count { result.count ≡ 0 }
    {
        UnreadLines {
            first: Vec::new(alloc),
            count: 0,
        }
    }

    /// Counts one line more, which comes after these, and keeps it unless `most` are kept.
    fn add(&mut self, line: UnreadLine, most: usize) -> Result<(), OutOfMemory>
        ensures { OnOk result ((all : List ℕ) → AreFirstOf most all self.old
            → AreFirstOf most (all ++ line.line ∷ []) self.new) }
    {
        if self.first.len() < most {
            self.first.push(line)?;
        }
        self.count = self.count.saturating_add(1);
        Ok(())
    }
}

/// The lines of a graph file that can't be read: the first of them, in order and `most` at most, and how many there
/// are. The first of them is the one that `read_graph` returns. Only those that are returned are kept. OutOfMemory (99)
/// is returned if an allocation was refused.
pub fn unread_lines(alloc: Global, bytes: &[u8], most: usize) -> Result<UnreadLines, OutOfMemory>
    ensures { IfOk result (AreFirstOf most (unread_lines bytes.now)) }
{
    let mut unread = UnreadLines::none(alloc);
    let mut left = KeptLines::new(bytes);
    while let Some(line) = left.next_line() {
        if let Err(why) = read_graph_line(line.text) {
            let line = line.number;
            unread.add(UnreadLine { line, unread: why }, most)?;
        }
    }
    Ok(unread)
}
