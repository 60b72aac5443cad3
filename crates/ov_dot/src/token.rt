ghost use Rattle.std.specs.Prelude.{◌≡◌, map};
ghost use Rattle.std.specs.Char.{to_ascii_lowercase};
ghost use Rattle.ov_dot.specs.Tokens.{kind_of, dash_kind, is_word, sticks, word_kind, is_keyword};

/// What a token is.
#[derive(Clone, Copy, Debug, PartialEq, Eq)]
pub enum Kind {
    Strict,
    Graph,
    Digraph,
    Node,
    Edge,
    Subgraph,
    /// An identifier that is no keyword, or a numeral.
    Bare,
    /// A text in double quotes.
    Quoted,
    /// A text between `<` and `>`.
    Html,
    OpenBrace,
    CloseBrace,
    OpenBracket,
    CloseBracket,
    Semicolon,
    Comma,
    Equals,
    Colon,
    /// `--`, an edge of a graph.
    Line,
    /// `->`, an edge of a digraph.
    Arrow,
}

/// A token, and where it stands.
#[derive(Clone, Copy, Debug)]
pub struct Token<'a> {
    /// The line where it begins. Lines are counted from 1.
    pub line: u64,
    pub kind: Kind,
    /// All its bytes, as they stand in the text.
    pub text: &'a [u8],
}

/// The kind of the token that a part is. None is returned if it stands between tokens.
pub(crate) fn kind_of(part: &[u8]) -> Option<Kind>
    ensures { result ≡ kind_of part.now }
{
    let (first, rest) = part.split_first()?;
    match *first {
        b'\t' | b'\r' | b' ' | b'\n' | b'/' => None,
        b'{' => Some(Kind::OpenBrace),
        b'}' => Some(Kind::CloseBrace),
        b'[' => Some(Kind::OpenBracket),
        b']' => Some(Kind::CloseBracket),
        b';' => Some(Kind::Semicolon),
        b',' => Some(Kind::Comma),
        b'=' => Some(Kind::Equals),
        b':' => Some(Kind::Colon),
        b'"' => Some(Kind::Quoted),
        b'<' => Some(Kind::Html),
        b'-' => Some(dash_kind(rest)),
        _ => Some(word_kind(part)),
    }
}

/// Whether a part of this kind is a word or a numeral: nothing but the next part says where it ends.
pub(crate) fn is_word(kind: Option<Kind>) -> bool
    ensures { result ≡ is_word kind }
{
    match kind {
        Some(Kind::Strict | Kind::Graph | Kind::Digraph) => true,
        Some(Kind::Node | Kind::Edge | Kind::Subgraph | Kind::Bare) => true,
        _ => false,
    }
}

/// Whether a part of this kind can't stand right behind a word or a numeral: it is one too, or a colon.
pub(crate) fn sticks(kind: Option<Kind>) -> bool
    ensures { result ≡ sticks kind }
{
    match kind {
        Some(Kind::Colon) => true,
        _ => is_word(kind),
    }
}

/// The kind of a token behind `-`.
fn dash_kind(rest: &[u8]) -> Kind
    ensures { result ≡ dash_kind rest.now }
{
    match rest.first() {
        Some(b'-') => Kind::Line,
        Some(b'>') => Kind::Arrow,
        _ => Kind::Bare,
    }
}

/// The keyword that a word is, in any case, or a bare text.
fn word_kind(word: &[u8]) -> Kind
    ensures { result ≡ word_kind word.now }
{
    if is_keyword(b"node", word) {
        return Kind::Node;
    }
    if is_keyword(b"edge", word) {
        return Kind::Edge;
    }
    if is_keyword(b"graph", word) {
        return Kind::Graph;
    }
    if is_keyword(b"digraph", word) {
        return Kind::Digraph;
    }
    if is_keyword(b"subgraph", word) {
        return Kind::Subgraph;
    }
    if is_keyword(b"strict", word) {
        return Kind::Strict;
    }
    Kind::Bare
}

/// Whether a word is this keyword, which is written in lowercase letters, in any case.
fn is_keyword(keyword: &[u8], word: &[u8]) -> bool
    requires { map to_ascii_lowercase keyword.now ≡ keyword.now }
    ensures { result ≡ is_keyword keyword.now word.now }
{
    word.eq_ignore_ascii_case(keyword)
}
