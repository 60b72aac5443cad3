ghost use Rattle.std.specs.Prelude.{◌≡◌, ◌-◌, ◌<◌, ◌^◌, MatchOption};
ghost use Rattle.ov_dot.specs.Parts.{is_letter, is_word_byte, is_feed_rest, is_part};
ghost use Rattle.ov_dot.specs.Parts.{HasNoPrefix, IsLongest};
ghost use Rattle.ov_dot.specs.Code.Scanning.{after, first_place, decimal_place, is_whole, marked, open_at};
ghost use Rattle.ov_dot.specs.Code.Scanning.{longest_from};

/// The first byte that is none of ASCII. Each from there on may stand in an identifier.
const FIRST_ABOVE_ASCII: u8 = 128;

/// A place in a part: what has been read of it.
#[derive(Clone, Copy)]
pub(crate) enum ScanPlace {
    /// Nothing.
    Start,
    /// A line feed.
    LineFeed,
    /// A slash, which begins a comment.
    Slash,
    LineComment,
    BlockComment,
    /// A comment up to a `*` in it.
    BlockStar,
    /// An identifier.
    Word,
    /// A minus.
    Minus,
    /// A point, and before it no digit.
    Point,
    /// Digits of a numeral.
    Digits,
    /// A numeral up to its point, or behind that.
    Fraction,
    /// A text behind its opening quote.
    Text,
    /// Such a text, up to a backslash in it.
    Escaped,
    /// An HTML text behind its first `<`, where this many further ones are open.
    Angle(usize),
    /// A part that can't go on.
    End,
}

impl ScanPlace {
    /// The place behind one byte more. None is returned if the part can't go on by it.
    fn after(self, byte: u8) -> Option<ScanPlace>
        requires { open_at self < 2 ^ 64 - 1 }
        ensures { result ≡ after self byte }
    {
        match self {
            ScanPlace::Start => ScanPlace::first(byte),
            ScanPlace::LineFeed => (byte == b'#').then_some(ScanPlace::LineComment),
            ScanPlace::Slash => ScanPlace::behind_slash(byte),
            ScanPlace::LineComment => (byte != b'\n').then_some(ScanPlace::LineComment),
            ScanPlace::BlockComment => Some(ScanPlace::in_comment(byte)),
            ScanPlace::BlockStar => Some(ScanPlace::behind_star(byte)),
            ScanPlace::Word => is_word_byte(byte).then_some(ScanPlace::Word),
            ScanPlace::Minus => ScanPlace::behind_minus(byte),
            ScanPlace::Digits => ScanPlace::behind_digit(byte),
            ScanPlace::Point | ScanPlace::Fraction => byte
                .is_ascii_digit()
                .then_some(ScanPlace::Fraction),
            ScanPlace::Text => Some(ScanPlace::in_text(byte)),
            ScanPlace::Escaped => Some(ScanPlace::Text),
            ScanPlace::Angle(depth) => Some(ScanPlace::in_html(depth, byte)),
            ScanPlace::End => None,
        }
    }

    /// The place behind the first byte of a part.
    fn first(byte: u8) -> Option<ScanPlace>
        ensures { result ≡ first_place byte }
    {
        match byte {
            b'\t' | b'\r' | b' ' => Some(ScanPlace::End),
            b'{' | b'}' | b'[' | b']' | b';' | b',' | b'=' | b':' => Some(ScanPlace::End),
            b'\n' => Some(ScanPlace::LineFeed),
            b'/' => Some(ScanPlace::Slash),
            b'"' => Some(ScanPlace::Text),
            b'<' => Some(ScanPlace::Angle(0)),
            b'-' => Some(ScanPlace::Minus),
            _ if is_letter(byte) => Some(ScanPlace::Word),
            _ => ScanPlace::decimal(byte),
        }
    }

    /// The place behind the first byte of a numeral.
    fn decimal(byte: u8) -> Option<ScanPlace>
        ensures { result ≡ decimal_place byte }
    {
        if byte.is_ascii_digit() {
            return Some(ScanPlace::Digits);
        }
        (byte == b'.').then_some(ScanPlace::Point)
    }

    /// The place behind one byte more of a comment that a slash begins.
    fn behind_slash(byte: u8) -> Option<ScanPlace>
        ensures { result ≡ after ScanPlace.Slash byte }
    {
        match byte {
            b'/' => Some(ScanPlace::LineComment),
            b'*' => Some(ScanPlace::BlockComment),
            _ => None,
        }
    }

    /// The place behind one byte more of a comment.
    fn in_comment(byte: u8) -> ScanPlace
        ensures { Some result ≡ after ScanPlace.BlockComment byte }
    {
        match byte {
            b'*' => ScanPlace::BlockStar,
            _ => ScanPlace::BlockComment,
        }
    }

    /// The place behind one byte more of a comment, behind a `*`.
    fn behind_star(byte: u8) -> ScanPlace
        ensures { Some result ≡ after ScanPlace.BlockStar byte }
    {
        match byte {
            b'/' => ScanPlace::End,
            b'*' => ScanPlace::BlockStar,
            _ => ScanPlace::BlockComment,
        }
    }

    /// The place behind a minus and one byte more.
    fn behind_minus(byte: u8) -> Option<ScanPlace>
        ensures { result ≡ after ScanPlace.Minus byte }
    {
        match byte {
            b'-' | b'>' => Some(ScanPlace::End),
            _ => ScanPlace::decimal(byte),
        }
    }

    /// The place behind digits and one byte more.
    fn behind_digit(byte: u8) -> Option<ScanPlace>
        ensures { result ≡ after ScanPlace.Digits byte }
    {
        if byte.is_ascii_digit() {
            return Some(ScanPlace::Digits);
        }
        (byte == b'.').then_some(ScanPlace::Fraction)
    }

    /// The place behind one byte more of a quoted text.
    fn in_text(byte: u8) -> ScanPlace
        ensures { Some result ≡ after ScanPlace.Text byte }
    {
        match byte {
            b'"' => ScanPlace::End,
            b'\\' => ScanPlace::Escaped,
            _ => ScanPlace::Text,
        }
    }

    /// The place behind one byte more of an HTML text, where this many further brackets are open.
    fn in_html(depth: usize, byte: u8) -> ScanPlace
        requires { depth < 2 ^ 64 - 1 }
        ensures { Some result ≡ after (ScanPlace.Angle depth) byte }
    {
        match byte {
            b'<' => ScanPlace::Angle(depth + 1),
            b'>' if depth == 0 => ScanPlace::End,
            b'>' => ScanPlace::Angle(depth - 1),
            _ => ScanPlace::Angle(depth),
        }
    }

    /// The end of the longest part so far, at this place behind so many bytes.
    fn marked(self, len: usize, longest: Option<usize>) -> Option<usize>
        ensures { result ≡ marked len self longest }
    {
        if self.is_whole() { Some(len) } else { longest }
    }

    /// Whether a part may end here.
    fn is_whole(self) -> bool
        ensures { result ≡ is_whole self }
    {
        match self {
            ScanPlace::LineFeed | ScanPlace::LineComment | ScanPlace::Word => true,
            ScanPlace::Digits | ScanPlace::Fraction | ScanPlace::End => true,
            ScanPlace::Start | ScanPlace::Slash | ScanPlace::BlockComment | ScanPlace::BlockStar =>
                false,
            ScanPlace::Minus
            | ScanPlace::Point
            | ScanPlace::Text
            | ScanPlace::Escaped
            | ScanPlace::Angle(_) => false,
        }
    }
}

/// Whether an identifier may begin with a byte.
fn is_letter(byte: u8) -> bool
    ensures { result ≡ is_letter byte }
{
    byte.is_ascii_alphabetic() || byte == b'_' || byte >= FIRST_ABOVE_ASCII
}

/// Whether a byte may stand in an identifier.
fn is_word_byte(byte: u8) -> bool
    ensures { result ≡ is_word_byte byte }
{
    is_letter(byte) || byte.is_ascii_digit()
}

/// How many bytes the longest part has with which a text begins. None is returned if it begins with no part.
#[tactic(auto, using(crate::proofs::Scanned::part_found))]
pub(crate) fn part_len(text: &[u8]) -> Option<usize>
    ensures { MatchOption result (HasNoPrefix is_part text.now) (λ n. IsLongest is_part n text.now) }
{
    longest_from(ScanPlace::Start, text)
}

/// How many bytes of a text belong to the line feed that stands before it: those of a comment that begins with `#`.
#[tactic(auto, using(crate::proofs::Scanned::comment_found))]
pub(crate) fn comment_len(text: &[u8]) -> usize
    ensures { IsLongest is_feed_rest result text.now }
{
    longest_from(ScanPlace::LineFeed, text).unwrap_or(0)
}

/// The length of the longest prefix of a text by which a part goes on from a place, and may end.
#[tactic(auto, unfolding(crate::specs::Code::Scanning::longest_from))]
fn longest_from(start: ScanPlace, text: &[u8]) -> Option<usize>
    requires { open_at start ≡ 0 }
    ensures { result ≡ longest_from 0 (Some start) text.now None }
{
    let mut place = start;
    let mut longest = None;
    for (index, byte) in text.iter().enumerate() {
        longest = place.marked(index, longest);
        match place.after(*byte) {
            Some(next) => place = next,
            None => return longest,
        }
    }
    place.marked(text.len(), longest)
}
