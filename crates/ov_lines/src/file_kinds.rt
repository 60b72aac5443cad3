ghost use Rattle.std.specs.Prelude.{◌≡◌, map};
ghost use Rattle.std.specs.Char.{to_ascii_lowercase};
ghost use Rattle.std.specs.List.{list_any};
ghost use Rattle.ov_lines.specs.Lines.{same, words_of};
ghost use Rattle.ov_lines.specs.FileKinds.{begins_dot, begins_list, begins_report, holds, is_certificate};
ghost use Rattle.ov_lines.specs.FileKinds.{is_dot_word, is_keyword, kind_by_text, kind_of, kind_of_word, opens_list};

use crate::text_start::{
    before_blank, before_keyword_end, behind_mark, first_text, is_blank, is_one_of,
};
use crate::word_cursor::{LineCursor, is_word};
use memchr::memmem;

/// The words that a graph file begins with.
const GRAPH_WORDS: [&str; 2] = ["node", "link"];

/// The words that a scenario begins with: of its settings, of a birth and of sections.
const SCENARIO_WORDS: [&str; 7] = [
    "params", "seed", "refill", "scale", "words", "boot", "together",
];

/// What the bytes of a file look like.
#[derive(Clone, Copy, Debug, PartialEq, Eq)]
pub enum FileKind {
    /// A certificate file.
    Certificate,
    /// What `overlay analyse` prints: the line of a report, and maybe a certificate below it.
    Report,
    /// A dump of what a cluster says of its links, as JSON.
    Views,
    /// A dump in Graphviz's language DOT.
    Dot,
    /// A graph file.
    Graph,
    /// A scenario file.
    Scenario,
    /// None of these.
    Unknown,
}

impl FileKind {
    /// Whether these are dumps, which `overlay import` reads.
    pub fn is_dump(self) -> bool {
        matches!(self, FileKind::Views | FileKind::Dot)
    }

    /// What such a file is called.
    pub fn words(self) -> &'static str {
        match self {
            FileKind::Certificate => "a certificate file",
            FileKind::Report => "the output of `overlay analyse`",
            FileKind::Views | FileKind::Dot => "a dump",
            FileKind::Graph => "a graph file",
            FileKind::Scenario => "a scenario",
            FileKind::Unknown => "another file",
        }
    }
}

/// What the bytes of a file look like, or those that it begins with. It is told from the first line that is neither
/// blank nor a comment, and from how that begins; a byte order mark is passed over. An object of JSON is a certificate
/// file if it has the key `verdict`, or begins with the key with which a certificate file is written here; else it is a
/// dump of views. (The signs are chosen here.)
pub fn looks_like(bytes: &[u8]) -> FileKind
    ensures { result ≡ kind_of bytes.now }
{
    let bytes = behind_mark(bytes);
    kind_by_text(bytes, first_text(bytes))
}

/// The kind of files of these bytes, of which this text is the first that says something.
#[tactic(auto, unfolding(crate::specs::FileKinds::kind_by_text))]
fn kind_by_text(bytes: &[u8], text: &[u8]) -> FileKind
    ensures { result ≡ kind_by_text bytes.now text.now }
{
    if text.starts_with(b"{") {
        if is_certificate(bytes) {
            return FileKind::Certificate;
        }
        return FileKind::Views;
    }
    if begins_list(text) {
        return FileKind::Views;
    }
    if begins_dot(text) {
        return FileKind::Dot;
    }
    if begins_report(text) {
        return FileKind::Report;
    }
    kind_of_word(before_blank(text))
}

/// Whether an object of JSON looks like a certificate file.
#[tactic(auto, unfolding(crate::specs::FileKinds::is_certificate))]
fn is_certificate(bytes: &[u8]) -> bool
    ensures { result ≡ is_certificate bytes.now }
{
    if bytes.starts_with(b"{\"cut\":") || bytes.starts_with(b"{\"group\":") {
        return true;
    }
    bytes.starts_with(b"{\"k\":") || holds(b"\"verdict\"", bytes)
}

/// Whether a text has a part somewhere.
fn holds(part: &[u8], text: &[u8]) -> bool
    ensures { result ≡ holds part.now text.now }
{
    memmem::find(text, part).is_some()
}

/// Whether a text begins like a list of JSON, and not like an address in brackets.
fn begins_list(text: &[u8]) -> bool
    ensures { result ≡ begins_list text.now }
{
    match text.split_first() {
        Some((first, rest)) => *first == b'[' && opens_list(rest),
        None => false,
    }
}

/// Whether this may follow the bracket of a list of JSON.
fn opens_list(rest: &[u8]) -> bool
    ensures { result ≡ opens_list rest.now }
{
    match rest.split_first() {
        Some((first, _)) => is_blank(*first) || is_one_of(*first, b"\"[{]"),
        None => true,
    }
}

/// Whether a text begins like DOT.
fn begins_dot(text: &[u8]) -> bool
    ensures { result ≡ begins_dot text.now }
{
    if text.starts_with(b"//") || text.starts_with(b"/*") {
        return true;
    }
    is_dot_word(before_keyword_end(text))
}

/// Whether a word is one with which DOT begins.
fn is_dot_word(word: &[u8]) -> bool
    ensures { result ≡ is_dot_word word.now }
{
    if is_keyword(b"graph", word) {
        return true;
    }
    is_keyword(b"digraph", word) || is_keyword(b"strict", word)
}

/// Whether a word is this keyword, which is written in lowercase letters, in any case.
fn is_keyword(keyword: &[u8], word: &[u8]) -> bool
    requires { map to_ascii_lowercase keyword.now ≡ keyword.now }
    ensures { result ≡ is_keyword keyword.now word.now }
{
    word.eq_ignore_ascii_case(keyword)
}

/// Whether a line begins like one that `overlay analyse` prints.
fn begins_report(line: &[u8]) -> bool
    ensures { result ≡ begins_report (words_of line.now) }
{
    let mut words = LineCursor::new(line);
    let Some(name) = words.word() else {
        return false;
    };
    let Some(_) = words.word() else {
        return false;
    };
    let Some(verdict) = words.word() else {
        return false;
    };
    is_word(name, b"report") && (is_word(verdict, b"split") || is_word(verdict, b"linked"))
}

/// The kind of files that begin with this word.
#[tactic(auto, unfolding(crate::specs::FileKinds::kind_of_word))]
fn kind_of_word(word: &[u8]) -> FileKind
    ensures { result ≡ kind_of_word word.now }
{
    if is_among(&GRAPH_WORDS, word) {
        return FileKind::Graph;
    }
    if is_among(&SCENARIO_WORDS, word) {
        return FileKind::Scenario;
    }
    FileKind::Unknown
}

/// Whether a word is one of these.
fn is_among(words: &[&str], word: &[u8]) -> bool
    ensures { result ≡ list_any (λ other. same word.now other.now) words.now }
{
    words.iter().any(|other| is_word(word, other.as_bytes()))
}
