//! The tokens at the front of a text, and what follows them.
ghost use Rattle.std.specs.Prelude.{◌≡◌, ◌+◌, ◌<◌, ◌++◌, ◌∷◌, decimal, true, IsTrue, IfSome};
ghost use Rattle.json.specs.Token.{string};
ghost use Rattle.json.specs.Word.{is_space, ends_word};
ghost use Rattle.json.specs.Lex.{between, lex, token, class, operator, operator_lexeme};
ghost use Rattle.json.specs.Print.{escape};

/// A text without the white space at its front.
#[inline(always)]
#[tactic(auto, using(crate::proofs::Lexed::space_passed))]
pub(crate) fn after_space(text: &[u8]) -> &[u8]
    ensures { lex between result.now ≡ lex between text.now }
{
    let mut rest = text;
    while let Some((byte, after)) = rest.split_first() {
        if !is_space(*byte) {
            return rest;
        }
        rest = after;
    }
    rest
}

/// Whether a byte is white space of JSON.
#[inline(always)]
fn is_space(byte: u8) -> bool
    ensures { result ≡ is_space byte }
{
    byte == b' ' || byte == b'\t' || byte == b'\n' || byte == b'\r'
}

/// What follows a bracket, a comma or a colon and white space, if the text begins with this mark.
#[inline(always)]
#[tactic(auto, using(crate::proofs::Lexed::mark_lexed))]
pub(crate) fn after_mark(text: &[u8], mark: u8) -> Option<&[u8]>
    requires { class mark ≡ operator }
    ensures { IfSome result (λ rest. lex between text.now ≡ operator_lexeme mark ∷ lex between rest.now) }
{
    let (byte, rest) = text.split_first()?;
    if *byte != mark {
        return None;
    }
    Some(after_space(rest))
}

/// What follows a text in quotes and white space, if `text` begins with this one.
#[tactic(auto, using(crate::proofs::Lexed::text_lexed))]
pub(crate) fn after_text<'a>(text: &'a [u8], wanted: &str) -> Option<&'a [u8]>
    requires { escape wanted.now ≡ wanted.now }
    ensures { IfSome result (λ rest. lex between text.now ≡ token (string wanted.now) ∷ lex between rest.now) }
{
    let inside = after_prefix(text, b"\"")?;
    let behind = after_prefix(inside, wanted.as_bytes())?;
    let rest = after_prefix(behind, b"\"")?;
    Some(after_space(rest))
}

/// What follows these bytes, if the text begins with them.
#[tactic(auto, using(crate::proofs::Lexed::prefixed))]
fn after_prefix<'a>(text: &'a [u8], prefix: &[u8]) -> Option<&'a [u8]>
    ensures { IfSome result (λ rest. text.now ≡ prefix.now ++ rest.now) }
{
    let rest = text.strip_prefix(prefix)?;
    Some(rest)
}

/// Whether a word has ended where this text begins.
#[inline(always)]
pub(crate) fn ends_word(text: &[u8]) -> bool
    ensures { IsTrue result → ends_word text.now ≡ true }
{
    match text.first() {
        None => true,
        Some(byte) => *byte == b',' || *byte == b']' || *byte == b'}' || is_space(*byte),
    }
}

/// The whole number at the front of a text if it fits 32 bits, and what follows it. Zeros may not lead.
#[inline(always)]
#[tactic(auto, using(crate::proofs::Lexed::digit_first))]
pub(crate) fn number_in(text: &[u8]) -> Option<(u32, &[u8])>
    ensures { IfSome result (λ p. text.now ≡ decimal p.0 ++ p.1.now) }
{
    let (byte, rest) = text.split_first()?;
    let first = digit_of(*byte)?;
    if first == 0 {
        return Some((0, rest));
    }
    let (number, after) = with_digits(first, rest)?;
    Some((number, after))
}

/// The number whose first digit is this one, and whose others are at the front of a text.
#[inline(always)]
#[tactic(auto, using(crate::proofs::Lexed::digit_more))]
fn with_digits(first: u32, text: &[u8]) -> Option<(u32, &[u8])>
    requires some { 0 < first }
    requires digit { first < 10 }
    ensures { IfSome result (λ p. decimal first ++ text.now ≡ decimal p.0 ++ p.1.now) }
{
    let mut number = first;
    let mut rest = text;
    while let Some((byte, after)) = rest.split_first() {
        let Some(digit) = digit_of(*byte) else {
            return Some((number, rest));
        };
        number = number.checked_mul(10)?.checked_add(digit)?;
        rest = after;
    }
    Some((number, rest))
}

/// The value of a decimal digit.
#[inline(always)]
fn digit_of(byte: u8) -> Option<u32>
    ensures { IfSome result (λ digit. (byte ≡ 48 + digit) × (digit < 10)) }
{
    if byte.is_ascii_digit() {
        Some(u32::from(byte - b'0'))
    } else {
        None
    }
}
