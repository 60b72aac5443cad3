//! What is left of a JSON text, taken token by token.
ghost use Rattle.std.specs.Prelude.{◌≡◌, ◌∷◌, [], decimal, IsTrue, MatchResult};
ghost use Rattle.std.specs.Bool.{MatchBool};
ghost use Rattle.json.specs.Token as json_token;
ghost use Rattle.json.specs.Lex.{between, lex, after_value, punctuate, tokens, may_begin, may_close};
ghost use Rattle.json.specs.Print.{escape};
ghost use Rattle.ov_tokens.specs.Code.Left.{place_in};

use crate::token_texts::{after_mark, after_space, after_text, ends_word, number_in};
use std::marker::Model;

/// Another token is next than the one that was asked for; or it is that one in another spelling, as `1e0` is the number
/// 1. The cursor has taken nothing.
#[derive(Clone, Copy)]
pub struct OtherToken;

/// Where a cursor stands.
#[derive(Clone, Copy)]
pub(crate) enum CursorPlace {
    /// At the beginning, or behind an opening bracket or a colon.
    Fresh,
    /// Behind a value, where no comma follows.
    AfterValue,
    /// Behind a comma.
    AfterComma,
}

impl CursorPlace {
    /// Whether a value or a key may begin here.
    #[inline(always)]
    fn may_begin(self) -> bool
        ensures { result ≡ may_begin (place_in self) }
    {
        matches!(self, CursorPlace::Fresh | CursorPlace::AfterComma)
    }

    /// Whether a closing bracket may stand here.
    #[inline(always)]
    fn may_close(self) -> bool
        ensures { result ≡ may_close (place_in self) }
    {
        matches!(self, CursorPlace::Fresh | CursorPlace::AfterValue)
    }
}

/// What is left of a JSON text. Contracts see its tokens. Commas, colons and white space go with the token before them.
#[derive(Drop)]
pub struct TokenCursor<'a> {
    /// The bytes from the next token on.
    rest: &'a [u8],
    place: CursorPlace,
}

impl<'a> Model for TokenCursor<'a> {
    ghost use Rattle.std.specs.Prelude.{List};
    ghost use Rattle.json.specs.Token.{Token, tokens_code};
    ghost use Rattle.ov_tokens.specs.Code.Left.{tokens_at};

    ghost Value = { List Token };

    ghost coded = { tokens_code };

    ghost view = { λ c. tokens_at c.place c.rest.now };
}

impl<'a> TokenCursor<'a> {
    /// The whole of a text.
    pub fn new(text: &'a str) -> TokenCursor<'a>
        ensures { result ≡ tokens text.now }
    {
        TokenCursor {
            rest: after_space(text.as_bytes()),
            place: CursorPlace::Fresh,
        }
    }

    /// Whether nothing is left.
    #[tactic(auto, using(crate::proofs::Lexed::none_left))]
    pub fn is_at_end(&self) -> bool
        ensures { IsTrue result → self.now ≡ [] }
    {
        match self.place {
            CursorPlace::AfterValue => self.rest.is_empty(),
            _ => false,
        }
    }

    /// Whether this text in quotes is next, be it a key or a value. It must have no character that JSON writes with a
    /// backslash. No clause speaks of the answer, since the call that takes the text tests again.
    pub fn is_at_text(&self, wanted: &str) -> bool
        requires { escape wanted.now ≡ wanted.now }
    {
        after_text(self.rest, wanted).is_some()
    }

    /// Takes the bracket that opens an array.
    #[tactic(auto, using(crate::proofs::Lexed::array_begun))]
    pub fn begin_array(&mut self) -> Result<(), OtherToken>
        ensures { MatchResult result (λ _. self.old ≡ json_token.begin_array ∷ self.new) (λ _. self.new ≡ self.old) }
    {
        let Some(rest) = after_mark(self.rest, b'[') else {
            return Err(OtherToken);
        };
        if !self.place.may_begin() {
            return Err(OtherToken);
        }
        self.rest = rest;
        self.place = CursorPlace::Fresh;
        Ok(())
    }

    /// Takes the brace that opens an object.
    #[tactic(auto, using(crate::proofs::Lexed::object_begun))]
    pub fn begin_object(&mut self) -> Result<(), OtherToken>
        ensures { MatchResult result (λ _. self.old ≡ json_token.begin_object ∷ self.new) (λ _. self.new ≡ self.old) }
    {
        let Some(rest) = after_mark(self.rest, b'{') else {
            return Err(OtherToken);
        };
        if !self.place.may_begin() {
            return Err(OtherToken);
        }
        self.rest = rest;
        self.place = CursorPlace::Fresh;
        Ok(())
    }

    /// Takes the bracket that closes an array, if it is next.
    #[inline(always)]
    #[tactic(auto, using(crate::proofs::Lexed::array_ended))]
    pub fn end_array(&mut self) -> bool
        ensures { MatchBool result (self.old ≡ json_token.end_array ∷ self.new) (self.new ≡ self.old) }
    {
        let Some(rest) = after_mark(self.rest, b']') else {
            return false;
        };
        if !self.place.may_close() {
            return false;
        }
        self.pass_value(rest);
        true
    }

    /// Takes the brace that closes an object.
    #[tactic(auto, using(crate::proofs::Lexed::object_ended))]
    pub fn end_object(&mut self) -> Result<(), OtherToken>
        ensures { MatchResult result (λ _. self.old ≡ json_token.end_object ∷ self.new) (λ _. self.new ≡ self.old) }
    {
        let Some(rest) = after_mark(self.rest, b'}') else {
            return Err(OtherToken);
        };
        if !self.place.may_close() {
            return Err(OtherToken);
        }
        self.pass_value(rest);
        Ok(())
    }

    /// Takes a key with its colon. The key must have no character that JSON writes with a backslash.
    #[tactic(auto, using(crate::proofs::Lexed::key_taken))]
    pub fn key(&mut self, wanted: &str) -> Result<(), OtherToken>
        requires { escape wanted.now ≡ wanted.now }
        ensures { MatchResult result (λ _. self.old ≡ json_token.key wanted.now ∷ self.new) (λ _. self.new ≡ self.old) }
    {
        let Some(rest) = after_text(self.rest, wanted) else {
            return Err(OtherToken);
        };
        let Some(rest) = after_mark(rest, b':') else {
            return Err(OtherToken);
        };
        if !self.place.may_begin() {
            return Err(OtherToken);
        }
        self.rest = rest;
        self.place = CursorPlace::Fresh;
        Ok(())
    }

    /// Takes a text that is a value and has a comma behind it. It must have no character that JSON writes with a
    /// backslash.
    #[tactic(auto, using(crate::proofs::Lexed::text_taken))]
    pub fn text_before_comma(&mut self, wanted: &str) -> Result<(), OtherToken>
        requires { escape wanted.now ≡ wanted.now }
        ensures { MatchResult result
            (λ _. self.old ≡ json_token.string wanted.now ∷ self.new) (λ _. self.new ≡ self.old) }
    {
        let Some(rest) = after_text(self.rest, wanted) else {
            return Err(OtherToken);
        };
        let Some(rest) = after_mark(rest, b',') else {
            return Err(OtherToken);
        };
        if !self.place.may_begin() {
            return Err(OtherToken);
        }
        self.rest = rest;
        self.place = CursorPlace::AfterComma;
        Ok(())
    }

    /// Takes a whole number that fits 32 bits, written without sign, fraction and exponent.
    #[inline(always)]
    #[tactic(auto, using(crate::proofs::Lexed::number_taken, crate::proofs::Lexed::number_lexed))]
    pub fn number(&mut self) -> Result<u32, OtherToken>
        ensures { MatchResult result
            (λ n. self.old ≡ json_token.number (decimal n) ∷ self.new) (λ _. self.new ≡ self.old) }
    {
        let Some((number, rest)) = number_in(self.rest) else {
            return Err(OtherToken);
        };
        if !ends_word(rest) {
            return Err(OtherToken);
        }
        if !self.place.may_begin() {
            return Err(OtherToken);
        }
        self.pass_value(after_space(rest));
        Ok(number)
    }

    /// Goes to what follows a value, behind the comma if there is one.
    #[inline(always)]
    #[tactic(auto, using(crate::proofs::Lexed::comma_passed))]
    fn pass_value(&mut self, rest: &'a [u8])
        ensures { self.new ≡ punctuate after_value (lex between rest.now) }
    {
        match after_mark(rest, b',') {
            Some(more) => {
                self.rest = more;
                self.place = CursorPlace::AfterComma;
            }
            None => {
                self.rest = rest;
                self.place = CursorPlace::AfterValue;
            }
        }
    }

    /// How many arrays and how many numbers the array that is next has, if it is an array of arrays of numbers. It is
    /// a guess of how much room they need, and nothing rests on it.
    pub fn sizes_ahead(&self) -> (usize, usize) {
        let mut opened: usize = 0;
        let mut closed: usize = 0;
        let mut numbers: usize = 0;
        let mut in_number = false;
        for byte in self.rest {
            match *byte {
                b'[' => opened = opened.saturating_add(1),
                b']' => closed = closed.saturating_add(1),
                b'{' | b'}' | b'"' => break,
                _ => {}
            }
            if closed >= opened {
                break;
            }
            let is_digit = byte.is_ascii_digit();
            if is_digit && !in_number {
                numbers = numbers.saturating_add(1);
            }
            in_number = is_digit;
        }
        (closed.saturating_sub(1), numbers)
    }
}
