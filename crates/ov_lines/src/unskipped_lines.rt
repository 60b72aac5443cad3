ghost use Rattle.std.specs.Prelude.{◌≡◌, ◌∷◌, [], MatchOption};
ghost use Rattle.ov_lines.specs.Lines.{is_skipped, kept_lines};

use crate::line_and_word_splitting::split_line;
use crate::word_cursor::LineCursor;
use std::marker::Model;

/// A line of a file that is not skipped, without its line feed and one carriage return before that.
#[derive(Clone, Copy)]
pub struct KeptLine<'a> {
    /// Its number among all lines of the file. These are counted from 1.
    pub number: usize,
    pub text: &'a [u8],
}

/// The lines of a file that are left to read. Lines without a word and comments, which begin with `#`, are skipped, but
/// counted.
#[derive(Drop)]
pub struct KeptLines<'a> {
    rest: &'a [u8],
    /// How many lines were read, skipped ones too.
    count: usize,
}

impl<'a> Model for KeptLines<'a> {
    ghost use Rattle.std.specs.Prelude.{ℕ, List, ◌+◌, ◌^◌, ◌<◌, length};
    ghost use Rattle.ov_lines.specs.Lines.{long_bits};
    ghost use Rattle.ov_lines.specs.Code.Kept.{lines_left};

    ghost Value = { List (ℕ × List ℕ) };

    ghost view = { λ l. lines_left l.count l.rest.now };

    ghost invariant = { λ l. l.count + length l.rest.now < 2 ^ long_bits };
}

impl<'a> KeptLines<'a> {
    /// All lines of a file.
    #[tactic(auto, unfolding(crate::specs::Code::Kept::lines_left, crate::specs::Lines::kept_lines))]
    pub fn new(bytes: &'a [u8]) -> KeptLines<'a>
        ensures { result ≡ kept_lines bytes.now }
    {
        KeptLines {
            rest: bytes,
            count: 0,
        }
    }

    /// Reads the same lines anew, and leaves these as they are.
    pub fn copy(&self) -> KeptLines<'a>
        ensures { result ≡ self.now }
    {
        KeptLines {
            rest: self.rest,
            count: self.count,
        }
    }

    /// Reads the next line that is not skipped, if there is one.
    #[tactic(auto, unfolding(crate::specs::Code::Kept::lines_left))]
    pub fn next_line(&mut self) -> Option<KeptLine<'a>>
        ensures { MatchOption result (self.old ≡ []) (λ l. self.old ≡ (l.number, l.text.now) ∷ self.new) }
    {
        while !self.rest.is_empty() {
            let (text, later) = split_line(self.rest);
            self.rest = later;
            self.count += 1;
            if !is_skipped(text) {
                let number = self.count;
                return Some(KeptLine { number, text });
            }
        }
        None
    }
}

/// Whether a line has no word, or is a comment.
fn is_skipped(text: &[u8]) -> bool
    ensures { result ≡ is_skipped text.now }
{
    match LineCursor::new(text).word() {
        None => true,
        Some(name) => name.starts_with(b"#"),
    }
}
