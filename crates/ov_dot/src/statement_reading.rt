ghost use Rattle.std.specs.Prelude.{◌≡◌, ◌+◌, ◌-◌, ◌<◌, ◌≤◌, ◌^◌, IfErr, IfOk, OnOk};
ghost use Rattle.ov_dot.specs.Tokens.{lexeme, lexemes};
ghost use Rattle.ov_dot.specs.Code.Statements.{at_beginning, depth_behind, directed_behind, ended, is_wrong_edge};
ghost use Rattle.ov_dot.specs.Code.Statements.{name_behind, place_behind, said_behind, statements_of, step, with_first};
ghost use Rattle.ov_dot.specs.Sayings.{nothing_said, with_edge, Said};
ghost use Rattle.ov_dot.specs.Code.Seen.{reading, said_in, Gives};

use crate::fault::{DotFault, Why};
use crate::grammar_state::{GrammarPlace, follows, why_not};
use crate::{Kind, Token};
use std::alloc::Global;

/// One name lists another.
#[derive(Clone, Copy)]
pub(crate) struct Link<'a> {
    pub(crate) from: Token<'a>,
    pub(crate) to: Token<'a>,
}

/// What statements say: the names that have entries, and the listings.
#[derive(Drop)]
pub(crate) struct Statements<'a> {
    pub(crate) entries: Vec<Token<'a>>,
    pub(crate) listings: Vec<Link<'a>>,
}

/// How far a file was read.
#[derive(Clone, Copy)]
pub(crate) struct Reader<'a> {
    directed: bool,
    /// How many braces are open.
    depth: usize,
    place: GrammarPlace,
    /// The last name of a node. Before the first one, the first token.
    name: Token<'a>,
    /// The line of the last token.
    line: u64,
}

/// What the tokens of a file say, or the first of them that can't stand where it does. OutOfMemory is returned if an
/// allocation was refused.
pub(crate) fn read_statements<'a>(
    alloc: Global,
    tokens: &[Token<'a>],
) -> Result<Statements<'a>, DotFault>
    ensures { Gives said_in result (statements_of (lexemes tokens.now)) }
{
    let mut said = Statements {
        entries: Vec::new(alloc),
        listings: Vec::new(alloc),
    };
    match read_all(tokens, &mut said) {
        Ok(()) => Ok(said),
        Err(fault) => Err(fault),
    }
}

/// Appends what the tokens of a file say, up to the first that can't stand where it does.
fn read_all<'a>(tokens: &[Token<'a>], said: &mut Statements<'a>) -> Result<(), DotFault>
    requires { said_in said.old ≡ nothing_said }
    ensures { Gives (λ _. said_in said.new) result (statements_of (lexemes tokens.now)) }
{
    let Some(first) = tokens.first() else {
        return Err(DotFault::UnreadLine {
            line: 1,
            why: Why::Unclosed,
        });
    };
    let mut reader = Reader::at_beginning(*first);
    for token in tokens {
        let next = reader.step(*token)?;
        reader.tell(*token, said)?;
        reader = next;
    }
    reader.end()
}

impl<'a> Reader<'a> {
    /// At the beginning of a text, before its first token.
    fn at_beginning(first: Token<'a>) -> Reader<'a>
        ensures { reading result ≡ at_beginning (lexeme first.entry) }
    {
        Reader {
            directed: false,
            depth: 0,
            place: GrammarPlace::Beginning,
            name: first,
            line: 1,
        }
    }

    /// Behind one token more. A token that can't stand there is refused, with its line.
    fn step(&self, token: Token<'a>) -> Result<Reader<'a>, DotFault>
        requires { self.now.depth < 2 ^ 64 - 1 }
        ensures step { Gives reading result (step (reading self.now) (lexeme token.entry)) }
        ensures depth { IfOk result (λ next. next.depth ≤ self.now.depth + 1) }
    {
        let line = token.line;
        let Some(place) = follows(self.place, token.kind) else {
            let why = why_not(self.place, token.kind);
            return Err(DotFault::UnreadLine { line, why });
        };
        if is_wrong_edge(self.directed, token.kind) {
            let why = Why::WrongEdge;
            return Err(DotFault::UnreadLine { line, why });
        }
        Ok(Reader {
            directed: directed_behind(self.directed, token.kind),
            depth: depth_behind(self.depth, token.kind),
            place: place_behind(self.depth, token.kind, place),
            name: name_behind(place, self.name, token),
            line,
        })
    }

    /// Appends what a token says that comes next.
    fn tell(&self, token: Token<'a>, said: &mut Statements<'a>) -> Result<(), DotFault>
        ensures told { OnOk result (said_in said.new
            ≡ said_behind (reading self.now) (lexeme token.entry) (said_in said.old)) }
        ensures memory { IfErr result (λ fault. fault ≡ DotFault.OutOfMemory) }
    {
        let from = self.name;
        match self.place {
            GrammarPlace::Named => tell_first(from, token.kind, said),
            GrammarPlace::EndNext => tell_edge(self.directed, Link { from, to: token }, said),
            _ => Ok(()),
        }
    }

    /// Refuses a text that ends before its last brace.
    fn end(self) -> Result<(), DotFault>
        ensures { (said : Said) → Gives (λ _. said) result (ended (reading self.entry) self.entry.place said) }
    {
        match self.place {
            GrammarPlace::Over => Ok(()),
            _ => Err(DotFault::UnreadLine {
                line: self.line,
                why: Why::Unclosed,
            }),
        }
    }
}

/// Appends the entry of the name with which a statement begins, unless `=` follows it.
fn tell_first<'a>(name: Token<'a>, kind: Kind, said: &mut Statements<'a>) -> Result<(), DotFault>
    ensures told { OnOk result (said_in said.new ≡ with_first (lexeme name.entry) kind (said_in said.old)) }
    ensures memory { IfErr result (λ fault. fault ≡ DotFault.OutOfMemory) }
{
    match kind {
        Kind::Equals => Ok(()),
        _ => Ok(said.entries.push(name)?),
    }
}

/// Appends the entries and the listings of an edge.
fn tell_edge<'a>(directed: bool, edge: Link<'a>, said: &mut Statements<'a>) -> Result<(), DotFault>
    ensures told { OnOk result (said_in said.new
        ≡ with_edge directed (lexeme edge.entry.from) (lexeme edge.entry.to) (said_in said.old)) }
    ensures memory { IfErr result (λ fault. fault ≡ DotFault.OutOfMemory) }
{
    said.entries.push(edge.from)?;
    said.listings.push(edge)?;
    if directed {
        return Ok(());
    }
    said.entries.push(edge.to)?;
    let (from, to) = (edge.to, edge.from);
    said.listings.push(Link { from, to })?;
    Ok(())
}

/// Whether a file is a digraph, behind one token more.
fn directed_behind(directed: bool, kind: Kind) -> bool
    ensures { result ≡ directed_behind directed kind }
{
    match kind {
        Kind::Digraph => true,
        _ => directed,
    }
}

/// How many braces are open, behind one token more.
fn depth_behind(depth: usize, kind: Kind) -> usize
    requires { depth < 2 ^ 64 - 1 }
    ensures depth { result ≡ depth_behind depth kind }
    ensures one { result ≤ depth + 1 }
{
    match kind {
        Kind::OpenBrace => depth + 1,
        Kind::CloseBrace => depth.saturating_sub(1),
        _ => depth,
    }
}

/// The place behind one token more, where the grammar leads to this place.
fn place_behind(depth: usize, kind: Kind, place: GrammarPlace) -> GrammarPlace
    ensures { result ≡ place_behind depth kind place }
{
    match kind {
        Kind::CloseBrace if depth <= 1 => GrammarPlace::Over,
        _ => place,
    }
}

/// The last name of a node, behind one token more at this place.
fn name_behind<'a>(place: GrammarPlace, name: Token<'a>, token: Token<'a>) -> Token<'a>
    ensures { lexeme result ≡ name_behind place (lexeme name.entry) (lexeme token.entry) }
{
    match place {
        GrammarPlace::Named | GrammarPlace::Member => token,
        _ => name,
    }
}

/// Whether a token is an edge of the other kind of graph.
fn is_wrong_edge(directed: bool, kind: Kind) -> bool
    ensures { result ≡ is_wrong_edge directed kind }
{
    match kind {
        Kind::Line => directed,
        Kind::Arrow => !directed,
        _ => false,
    }
}
