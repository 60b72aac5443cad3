ghost use Rattle.std.specs.Prelude.{◌↔◌, IsOk};
ghost use Rattle.std.specs.Prelude.{◌≡◌, ◌==◌, ◌∷◌, [], length, drop, IfOk, IfSome, MatchOption, option_map};
ghost use Rattle.std.specs.Result.{result_ok};
ghost use Rattle.ov_lines.specs.Lines.{words_of, behind_word, without_space, same, one, one_list, BeginsWith};
ghost use Rattle.ov_lines.specs.Lines.{long_bits, short_bits, workers_first};
ghost use Rattle.ov_lines.specs.Code.Spaced.{first_number};

use crate::id_list_reading::read_ids;
use crate::line_and_word_splitting::{drop_spaces, has_no_word, split_word};
use crate::numeral::{read_number, read_short_number};
use crate::unexpected_word::{END, Kind, Unread};
use crate::worker_count_reading::read_workers;
use ov_ids::{NodeId, OutOfMemory, Workers};
use std::alloc::Global;
use std::marker::Model;

/// What is left of a line to read. A call that wants something and finds something else says where, and what is wanted.
#[derive(Drop)]
pub struct LineCursor<'a> {
    /// The whole line.
    line: &'a [u8],
    rest: &'a [u8],
}

impl<'a> Model for LineCursor<'a> {
    ghost use Rattle.std.specs.Prelude.{ℕ, List};

    ghost Value = { List ℕ };

    ghost view = { λ c. c.rest.now };
}

impl<'a> LineCursor<'a> {
    /// The whole of a line.
    pub fn new(text: &'a [u8]) -> LineCursor<'a>
        ensures { result ≡ text.now }
    {
        LineCursor {
            line: text,
            rest: text,
        }
    }

    /// Reads the same anew, and leaves this as it is.
    pub fn copy(&self) -> LineCursor<'a>
        ensures { result ≡ self.now }
    {
        LineCursor {
            line: self.line,
            rest: self.rest,
        }
    }

    /// Reads the next word, if there is one.
    #[tactic(auto, using(crate::proofs::Lines::Parted::words_none, crate::proofs::Lines::Parted::words_some))]
    pub fn word(&mut self) -> Option<&'a [u8]>
        ensures word { MatchOption result (words_of self.old ≡ [])
            (λ w. words_of self.old ≡ w.now ∷ words_of self.new) }
        ensures left { words_of self.new ≡ drop 1 (words_of self.old) }
        ensures behind { IfSome result (λ _. self.new ≡ behind_word self.old) }
    {
        let (word, rest) = split_word(self.rest)?;
        self.rest = rest;
        Some(word)
    }

    /// Whether only spaces are left.
    pub fn is_at_end(&self) -> bool
        ensures { result ≡ (length (words_of self.now) == 0) }
    {
        has_no_word(self.rest)
    }

    /// All bytes that are left, without one space if they begin with one.
    pub fn after_space(&self) -> &'a [u8]
        ensures { result.now ≡ without_space self.now }
    {
        self.rest.strip_prefix(b" ").unwrap_or(self.rest)
    }

    /// What is wanted at the next word, and where that begins.
    pub fn unread(&self, wanted: &'static [Kind]) -> Unread {
        let left = drop_spaces(self.rest).len();
        Unread {
            at: self.line.len().saturating_sub(left),
            wanted,
        }
    }

    /// Reads the next word if it is this one.
    pub fn name(&mut self, name: &str, wanted: &'static [Kind]) -> Result<(), Unread>
        ensures name { IsOk result ↔ BeginsWith name.now (words_of self.old) }
        ensures left { words_of self.new ≡ drop 1 (words_of self.old) }
    {
        let unread = self.unread(wanted);
        match self.word() {
            Some(word) if is_word(word, name.as_bytes()) => Ok(()),
            _ => Err(unread),
        }
    }

    /// Reads the next word, which spells a number that fits 64 bits.
    pub fn number(&mut self, wanted: &'static [Kind]) -> Result<u64, Unread>
        ensures number { result_ok result ≡ first_number long_bits (words_of self.old) }
        ensures left { words_of self.new ≡ drop 1 (words_of self.old) }
    {
        let unread = self.unread(wanted);
        let Some(word) = self.word() else {
            return Err(unread);
        };
        read_number(word).ok_or(unread)
    }

    /// Reads the next word, which spells a number that fits 32 bits.
    pub fn short_number(&mut self, wanted: &'static [Kind]) -> Result<u32, Unread>
        ensures number { result_ok result ≡ first_number short_bits (words_of self.old) }
        ensures left { words_of self.new ≡ drop 1 (words_of self.old) }
        ensures behind { IfOk result (λ _. self.new ≡ behind_word self.old) }
    {
        let before = self.copy();
        let Some(word) = self.word() else {
            return Err(before.unread(wanted));
        };
        match read_short_number(word) {
            Some(number) => Ok(number),
            None => Err(before.unread(wanted)),
        }
    }

    /// Reads the next word, which spells a node's id.
    pub fn id(&mut self, wanted: &'static [Kind]) -> Result<NodeId, Unread>
        ensures id { result_ok result ≡ first_number short_bits (words_of self.old) }
        ensures left { words_of self.new ≡ drop 1 (words_of self.old) }
        ensures behind { IfOk result (λ _. self.new ≡ behind_word self.old) }
    {
        Ok(NodeId::new(self.short_number(wanted)?))
    }

    /// Reads the next word, which spells a number of workers.
    pub fn workers(&mut self, wanted: &'static [Kind]) -> Result<Workers, Unread>
        ensures { option_map (λ n. (n, words_of self.new)) (result_ok result) ≡ workers_first (words_of self.old) }
    {
        let unread = self.unread(wanted);
        let Some(word) = self.word() else {
            return Err(unread);
        };
        read_workers(word).ok_or(unread)
    }

    /// Reads the last word of the line, which spells a number that fits 64 bits.
    #[tactic(auto, using(crate::proofs::Lines::Numbers::one_number))]
    pub fn last_number(&mut self, wanted: &'static [Kind]) -> Result<u64, Unread>
        ensures { result_ok result ≡ one long_bits (words_of self.old) }
    {
        let number = self.number(wanted)?;
        if self.is_at_end() {
            return Ok(number);
        }
        Err(self.unread(END))
    }

    /// Reads the last word of the line, which spells a number that fits 32 bits.
    #[tactic(auto, using(crate::proofs::Lines::Numbers::one_number))]
    pub fn last_short_number(&mut self, wanted: &'static [Kind]) -> Result<u32, Unread>
        ensures { result_ok result ≡ one short_bits (words_of self.old) }
    {
        let number = self.short_number(wanted)?;
        if self.is_at_end() {
            return Ok(number);
        }
        Err(self.unread(END))
    }

    /// Reads the last word of the line, which spells a node's id.
    pub fn last_id(&mut self, wanted: &'static [Kind]) -> Result<NodeId, Unread>
        ensures { result_ok result ≡ one short_bits (words_of self.old) }
    {
        Ok(NodeId::new(self.last_short_number(wanted)?))
    }

    /// Reads the last word of the line, which spells ids.
    #[tactic(auto, using(crate::proofs::Lines::Numbers::list_of_ids))]
    pub fn last_ids(&mut self, alloc: Global) -> Result<Result<Vec<NodeId>, Unread>, OutOfMemory>
        ensures { IfOk result (λ ids. option_map (λ v. v.items) (result_ok ids) ≡ one_list (words_of self.old)) }
    {
        let unread = self.unread(&[Kind::Ids]);
        let Some(word) = self.word() else {
            return Ok(Err(unread));
        };
        let Some(ids) = read_ids(alloc, word)? else {
            return Ok(Err(unread));
        };
        if self.is_at_end() {
            return Ok(Ok(ids));
        }
        Ok(Err(self.unread(END)))
    }
}

/// Whether two words are equal.
pub fn is_word(word: &[u8], name: &[u8]) -> bool
    ensures { result ≡ same word.now name.now }
{
    word == name
}
