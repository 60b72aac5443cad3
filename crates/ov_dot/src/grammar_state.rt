ghost use Rattle.std.specs.Prelude.{◌≡◌};
ghost use Rattle.ov_dot.specs.Code.Diagram.{attribute, beginning, behind_attribute, behind_first, behind_list};
ghost use Rattle.ov_dot.specs.Code.Diagram.{behind_name, behind_node, behind_port, behind_value, follows, heading};
ghost use Rattle.ov_dot.specs.Code.Diagram.{list_opening, name_to, opening, statement, title_to, value_to};
ghost use Rattle.ov_dot.specs.Code.PlaceReasons.{lacking, no_end, no_statement, not_wanted, why_not};

use crate::Kind;
use crate::fault::Why;

/// A place in the grammar of DOT: what was read last, and so what may come next.
#[derive(Clone, Copy, PartialEq, Eq)]
pub(crate) enum GrammarPlace {
    /// The beginning of the text.
    Beginning,
    /// Behind `strict`.
    BehindStrict,
    /// Behind `graph` or `digraph`.
    BehindKind,
    /// Behind the name of the graph.
    BehindTitle,
    /// Behind a brace, a semicolon or an assignment: a statement may begin.
    Body,
    /// Behind the name with which a statement begins.
    Named,
    /// Behind another name of an edge.
    Member,
    /// Behind a name and a colon.
    PortNext,
    /// Behind a name and its port.
    Ported,
    /// Behind a name, its port and a colon.
    CompassNext,
    /// Behind a name, its port and the side of that.
    Directed,
    /// Behind `--` or `->`.
    EndNext,
    /// Behind `graph`, `node` or `edge` where a statement begins.
    ListNext,
    /// In a list of attributes, where one may begin.
    InList,
    /// Behind the name of an attribute.
    Attribute,
    /// Behind the name of an attribute and `=`.
    ValueNext,
    /// Behind the value of an attribute.
    Valued,
    /// Behind a list of attributes.
    Listed,
    /// Behind a name and `=`.
    AssignedNext,
    /// Behind `subgraph`.
    SubgraphNext,
    /// Behind `subgraph` and its name.
    SubgraphTitled,
    /// Behind the last brace.
    Over,
}

/// The place behind one token more. None is returned if no token of this kind may stand there.
pub(crate) fn follows(place: GrammarPlace, kind: Kind) -> Option<GrammarPlace>
    ensures { result ≡ follows place kind }
{
    match place {
        GrammarPlace::Beginning => beginning(kind),
        GrammarPlace::BehindStrict => heading(kind),
        GrammarPlace::BehindKind => title_to(GrammarPlace::BehindTitle, kind),
        GrammarPlace::SubgraphNext => title_to(GrammarPlace::SubgraphTitled, kind),
        GrammarPlace::BehindTitle | GrammarPlace::SubgraphTitled => opening(kind),
        GrammarPlace::Body => statement(kind),
        GrammarPlace::Named => behind_first(kind),
        GrammarPlace::Member => behind_name(kind),
        GrammarPlace::Ported => behind_port(kind),
        GrammarPlace::Directed => behind_node(kind),
        GrammarPlace::PortNext => name_to(GrammarPlace::Ported, kind),
        GrammarPlace::CompassNext => name_to(GrammarPlace::Directed, kind),
        GrammarPlace::EndNext => name_to(GrammarPlace::Member, kind),
        GrammarPlace::AssignedNext => value_to(GrammarPlace::Body, kind),
        GrammarPlace::ListNext => list_opening(kind),
        GrammarPlace::InList => attribute(kind),
        GrammarPlace::Attribute => behind_attribute(kind),
        GrammarPlace::ValueNext => value_to(GrammarPlace::Valued, kind),
        GrammarPlace::Valued => behind_value(kind),
        GrammarPlace::Listed => behind_list(kind),
        GrammarPlace::Over => None,
    }
}

/// The place to which a name leads.
fn name_to(place: GrammarPlace, kind: Kind) -> Option<GrammarPlace>
    ensures { result ≡ name_to place kind }
{
    match kind {
        Kind::Bare | Kind::Quoted => Some(place),
        _ => None,
    }
}

/// Where a file begins.
fn beginning(kind: Kind) -> Option<GrammarPlace>
    ensures { result ≡ beginning kind }
{
    match kind {
        Kind::Strict => Some(GrammarPlace::BehindStrict),
        _ => heading(kind),
    }
}

/// Where a file begins, behind `strict` or without it.
fn heading(kind: Kind) -> Option<GrammarPlace>
    ensures { result ≡ heading kind }
{
    match kind {
        Kind::Graph | Kind::Digraph => Some(GrammarPlace::BehindKind),
        _ => None,
    }
}

/// Where statements are to begin.
fn opening(kind: Kind) -> Option<GrammarPlace>
    ensures { result ≡ opening kind }
{
    match kind {
        Kind::OpenBrace => Some(GrammarPlace::Body),
        _ => None,
    }
}

/// Where statements are to begin, or a name before them, which leads to this place.
fn title_to(place: GrammarPlace, kind: Kind) -> Option<GrammarPlace>
    ensures { result ≡ title_to place kind }
{
    match kind {
        Kind::OpenBrace => Some(GrammarPlace::Body),
        _ => name_to(place, kind),
    }
}

/// Where a statement may begin.
fn statement(kind: Kind) -> Option<GrammarPlace>
    ensures { result ≡ statement kind }
{
    match kind {
        Kind::Graph | Kind::Node | Kind::Edge => Some(GrammarPlace::ListNext),
        Kind::Subgraph => Some(GrammarPlace::SubgraphNext),
        Kind::OpenBrace | Kind::CloseBrace | Kind::Semicolon => Some(GrammarPlace::Body),
        _ => name_to(GrammarPlace::Named, kind),
    }
}

/// Where a list of attributes is to begin.
fn list_opening(kind: Kind) -> Option<GrammarPlace>
    ensures { result ≡ list_opening kind }
{
    match kind {
        Kind::OpenBracket => Some(GrammarPlace::InList),
        _ => None,
    }
}

/// Behind a list of attributes.
fn behind_list(kind: Kind) -> Option<GrammarPlace>
    ensures { result ≡ behind_list kind }
{
    match kind {
        Kind::OpenBracket => Some(GrammarPlace::InList),
        _ => statement(kind),
    }
}

/// Behind a node.
fn behind_node(kind: Kind) -> Option<GrammarPlace>
    ensures { result ≡ behind_node kind }
{
    match kind {
        Kind::Line | Kind::Arrow => Some(GrammarPlace::EndNext),
        _ => behind_list(kind),
    }
}

/// Behind a node without a port.
fn behind_name(kind: Kind) -> Option<GrammarPlace>
    ensures { result ≡ behind_name kind }
{
    match kind {
        Kind::Colon => Some(GrammarPlace::PortNext),
        _ => behind_node(kind),
    }
}

/// Behind the name with which a statement begins.
fn behind_first(kind: Kind) -> Option<GrammarPlace>
    ensures { result ≡ behind_first kind }
{
    match kind {
        Kind::Equals => Some(GrammarPlace::AssignedNext),
        _ => behind_name(kind),
    }
}

/// Behind a node and its port.
fn behind_port(kind: Kind) -> Option<GrammarPlace>
    ensures { result ≡ behind_port kind }
{
    match kind {
        Kind::Colon => Some(GrammarPlace::CompassNext),
        _ => behind_node(kind),
    }
}

/// Where an attribute may begin.
fn attribute(kind: Kind) -> Option<GrammarPlace>
    ensures { result ≡ attribute kind }
{
    match kind {
        Kind::CloseBracket => Some(GrammarPlace::Listed),
        _ => name_to(GrammarPlace::Attribute, kind),
    }
}

/// Behind an attribute.
fn behind_value(kind: Kind) -> Option<GrammarPlace>
    ensures { result ≡ behind_value kind }
{
    match kind {
        Kind::Comma | Kind::Semicolon => Some(GrammarPlace::InList),
        _ => attribute(kind),
    }
}

/// Behind the name of an attribute.
fn behind_attribute(kind: Kind) -> Option<GrammarPlace>
    ensures { result ≡ behind_attribute kind }
{
    match kind {
        Kind::Equals => Some(GrammarPlace::ValueNext),
        _ => behind_value(kind),
    }
}

/// The place to which the value of an attribute leads.
fn value_to(place: GrammarPlace, kind: Kind) -> Option<GrammarPlace>
    ensures { result ≡ value_to place kind }
{
    match kind {
        Kind::Html => Some(place),
        _ => name_to(place, kind),
    }
}

/// Why a token of this kind can't stand at a place.
pub(crate) fn why_not(place: GrammarPlace, kind: Kind) -> Why
    ensures { result ≡ why_not place kind }
{
    match place {
        GrammarPlace::EndNext => no_end(kind),
        GrammarPlace::Body => no_statement(kind),
        GrammarPlace::Over => Why::BehindGraph,
        _ => not_wanted(lacking(place), kind),
    }
}

/// Why a token can't stand at the end of an edge.
fn no_end(kind: Kind) -> Why
    ensures { result ≡ no_end kind }
{
    match kind {
        Kind::Subgraph | Kind::OpenBrace => Why::SubgraphAsEnd,
        Kind::Html => Why::HtmlText,
        _ => Why::NoName,
    }
}

/// Why a token can't begin a statement.
fn no_statement(kind: Kind) -> Why
    ensures { result ≡ no_statement kind }
{
    match kind {
        Kind::Line | Kind::Arrow => Why::SubgraphAsEnd,
        Kind::Html => Why::HtmlText,
        _ => Why::NoStatement,
    }
}

/// Why a token can't stand where something else was wanted.
fn not_wanted(why: Why, kind: Kind) -> Why
    ensures { result ≡ not_wanted why kind }
{
    match kind {
        Kind::Html => Why::HtmlText,
        _ => why,
    }
}

/// What is lacking if a token can't stand at a place.
fn lacking(place: GrammarPlace) -> Why
    ensures { result ≡ lacking place }
{
    match place {
        GrammarPlace::Beginning | GrammarPlace::BehindStrict => Why::NoGraph,
        GrammarPlace::BehindKind
        | GrammarPlace::BehindTitle
        | GrammarPlace::SubgraphNext
        | GrammarPlace::SubgraphTitled => Why::NoBrace,
        GrammarPlace::PortNext | GrammarPlace::CompassNext | GrammarPlace::EndNext => Why::NoName,
        GrammarPlace::ListNext
        | GrammarPlace::InList
        | GrammarPlace::Attribute
        | GrammarPlace::ValueNext
        | GrammarPlace::Valued => Why::BadAttributes,
        GrammarPlace::AssignedNext => Why::BadAttributes,
        GrammarPlace::Body | GrammarPlace::Named | GrammarPlace::Member => Why::NoStatement,
        GrammarPlace::Ported | GrammarPlace::Directed | GrammarPlace::Listed => Why::NoStatement,
        GrammarPlace::Over => Why::BehindGraph,
    }
}
