ghost use Rattle.std.specs.Prelude.{◌≡◌};
ghost use Rattle.std.specs.Result.{result_ok};
ghost use Rattle.ov_lines.specs.Lines.{words_of};
ghost use Rattle.ov_scenario.specs.EventWords.{event_words};

use ov_lines::{Kind, LineCursor, Unread};
use ov_words::{WORDS_PER_EVENT, Words};
use std::marker::Model;

/// The random words that a line gives to an event, as it spells them. They are read anew where they are needed, so that
/// what a line says stays small. Contracts see the random words.
#[derive(Drop)]
pub(crate) struct GivenWords<'a> {
    spelled: LineCursor<'a>,
}

impl<'a> Model for GivenWords<'a> {
    ghost use Rattle.std.specs.Prelude.{ℕ, List, [], IsSome, unwrap_or};
    ghost use Rattle.ov_lines.specs.Lines.{words_of};
    ghost use Rattle.ov_scenario.specs.EventWords.{event_words};

    ghost Value = { List ℕ };

    ghost view = { λ given. unwrap_or (event_words (words_of given.spelled)) [] };

    ghost invariant = { λ given. IsSome (event_words (words_of given.spelled)) };
}

impl<'a> GivenWords<'a> {
    /// Reads 1 to 64 random words, up to the end of a line. Zeros follow them.
    pub(crate) fn read(cursor: &mut LineCursor<'a>) -> Result<GivenWords<'a>, Unread>
        ensures { result_ok result ≡ event_words (words_of cursor.old) }
    {
        let spelled = cursor.copy();
        let _ = read_event_words(cursor)?;
        Ok(GivenWords { spelled })
    }

    /// The random words.
    pub(crate) fn words(&self) -> Words
        ensures { result ≡ self.now }
    {
        let mut cursor = self.spelled.copy();
        Words::new(read_event_words(&mut cursor).unwrap())
    }
}

/// Reads 1 to 64 random words. Zeros follow them.
#[tactic(auto, using(crate::proofs::Lines::Filling::more))]
fn read_event_words(cursor: &mut LineCursor) -> Result<[u64; WORDS_PER_EVENT], Unread>
    ensures { result_ok result ≡ event_words (words_of cursor.old) }
{
    let mut words = [0; WORDS_PER_EVENT];
    words[0] = cursor.number(&[Kind::RandomWord])?;
    let mut count = 1;
    while !cursor.is_at_end() {
        if count == WORDS_PER_EVENT {
            return Err(cursor.unread(&[Kind::Full]));
        }
        words[count] = cursor.number(&[Kind::FurtherWord])?;
        count += 1;
    }
    Ok(words)
}
