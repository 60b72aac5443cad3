ghost use Rattle.std.specs.Prelude.{◌≡◌, ◌++◌, IfOk, IfErr, OnOk};
ghost use Rattle.ov_dot.specs.Tokens.{feeds, lexemes, token_at, HasTokens};
ghost use Rattle.ov_dot.specs.declared.token_reading.TextFault.TheVariants.{OutOfMemory};
ghost use Rattle.ov_dot.specs.Code.TokenFaults.{Faults};

use crate::lexeme_scanning::{comment_len, part_len};
use crate::token::{Kind, Token, is_word, kind_of, sticks};
use std::alloc::{AllocError, AllocFailed, Global};

/// Why a text has no tokens.
#[derive(Clone, Copy, Debug, PartialEq, Eq, Drop)]
pub(crate) enum TextFault {
    /// In this line, counted from 1, no token begins where the text goes on: the byte there begins none, or a quoted
    /// text, an HTML text or a comment that begins there has no end.
    NoToken { line: u64 },
    /// In this line, counted from 1, a word, a numeral or a colon stands right behind a word or a numeral, with nothing
    /// between them.
    TornName { line: u64 },
    OutOfMemory,
}

impl From<AllocError> for TextFault {
    ghost use Rattle.std.specs.Prelude.{◌≡◌};
    ghost use Rattle.ov_dot.specs.declared.token_reading.TextFault.TheVariants.{OutOfMemory};

    ghost from_gives = { λ _ fault. fault ≡ OutOfMemory };

    fn from(_error: AllocError) -> TextFault {
        TextFault::OutOfMemory
    }
}

impl<T: Drop> From<AllocFailed<T>> for TextFault {
    ghost use Rattle.std.specs.Prelude.{◌≡◌};
    ghost use Rattle.ov_dot.specs.declared.token_reading.TextFault.TheVariants.{OutOfMemory};

    ghost from_gives = { λ _ fault. fault ≡ OutOfMemory };

    fn from(_error: AllocFailed<T>) -> TextFault {
        TextFault::OutOfMemory
    }
}

/// The tokens of a DOT text, in order. NoToken is returned if the text can't be cut into tokens, white space and
/// comments: with the line where the first bytes begin that are no such part. TornName is returned if a word or a
/// numeral has another one right behind it, as `10.0` and `.1` in `10.0.1`, or a colon, as in `oslo:7946`: with the
/// line of the second. What comes first in the text is returned. OutOfMemory is returned if an allocation was refused.
/// The source is the page "The DOT Language" of Graphviz, which reads two names or a name with a port there; that they
/// are refused is chosen here.
#[tactic(auto, using(crate::proofs::Cutting::more, crate::proofs::Cutting::some_bytes))]
pub(crate) fn read_tokens<'a>(alloc: Global, text: &'a [u8]) -> Result<Vec<Token<'a>>, TextFault>
    ensures tokens { IfOk result (λ tokens. HasTokens text.now (lexemes tokens.items)) }
    ensures fault { IfErr result (λ fault. Faults text.now fault) }
{
    let mut tokens = Vec::new(alloc);
    let mut feeds = 0;
    let mut behind_word = false;
    let mut rest = &text[comment_len(text)..];
    while !rest.is_empty() {
        let Some(len) = part_len(rest) else {
            return Err(TextFault::NoToken { line: feeds + 1 });
        };
        let (part, behind) = rest.split_at(len);
        let kind = kind_of(part);
        if behind_word && sticks(kind) {
            return Err(TextFault::TornName { line: feeds + 1 });
        }
        push_token(&mut tokens, feeds + 1, kind, part)?;
        behind_word = is_word(kind);
        feeds += count_feeds(part);
        rest = behind;
    }
    Ok(tokens)
}

/// Appends the token of this kind that a part is, if it is one.
fn push_token<'a>(
    tokens: &mut Vec<Token<'a>>,
    line: u64,
    kind: Option<Kind>,
    part: &'a [u8],
) -> Result<(), TextFault>
    ensures pushed { OnOk result (lexemes tokens.new.items
        ≡ lexemes tokens.old.items ++ token_at line part.now kind) }
    ensures memory { IfErr result (λ fault. fault ≡ TextFault.OutOfMemory) }
{
    if let Some(kind) = kind {
        tokens.push(Token {
            line,
            kind,
            text: part,
        })?;
    }
    Ok(())
}

/// How many line feeds bytes have.
#[tactic(auto, using(crate::proofs::Cutting::feeds_counted))]
fn count_feeds(bytes: &[u8]) -> u64
    ensures { result ≡ feeds bytes.now }
{
    bytes.iter().filter(|byte| **byte == b'\n').count() as u64
}
