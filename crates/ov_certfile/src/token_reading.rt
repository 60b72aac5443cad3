//! Certificate files that are read token by token, without the JSON value of the whole text. This takes less time and
//! memory, and makes nothing of a file with any fault.
ghost use Rattle.std.specs.Prelude.{◌≡◌, ◌++◌, is_some, Some, Ok, IfOk, IfSome, OnOk};
ghost use Rattle.json.specs.Tree.{members_tokens};
ghost use Rattle.serde_json.specs.Data.{string, no_members, member};
ghost use Rattle.serde_json.specs.Written.{members_outline};
ghost use Rattle.ov_certfile.specs.Forms.{count_in, id_in, ids_in, links_in, fans_in};
ghost use Rattle.ov_certfile.specs.Kinds.{name_of, verdict_text, version_number};
ghost use Rattle.ov_certfile.specs.DataOf.{whole_data, ids_data, list_data, link_data, fan_data};
ghost use Rattle.ov_certfile.specs.Says.{SaysText};
ghost use Rattle.ov_certfile.specs.Code.Tokens.{TakesMembers};
ghost use Rattle.ov_certfile.specs.Code.Content.{TakesContent, NamedReadsBack, IsGraphWithin, Suits};
ghost use Rattle.ov_certfile.specs.Code.Content.{named_then, graph_in, filed_in};
ghost use Rattle.ov_certfile.specs.declared.file_keys.Key.TheVariants as key;

use crate::file_keys::Key;
use crate::linked_or_split::Verdict;
use crate::reading::Filed;
use crate::token_fields::{take_count, take_member};
use crate::token_keys::{is_at_key, take_key, take_verdict};
use crate::token_stop::Stop;
use crate::version::Version;
use ov_cert::{Cert, FanPaths, Split};
use ov_graph::{Graph, GraphFault};
use ov_ids::{NodeId, OutOfMemory, Seq};
use ov_tokens::TokenCursor;
use std::alloc::Global;

/// Reads a certificate file that is written as `to_text` writes it, with its keys in the order of their bytes, but for
/// white space. None: the text is not such a file, or its version is above the newest that is read, or it has another
/// fault; `filed_or_refusal` tells which. It is much faster than to read the JSON value of the text, and takes a
/// fraction of the memory.
///
/// `OutOfMemory` (99): an allocation was refused.
pub fn in_form(alloc: Global, newest: Version, text: &str) -> Result<Option<Filed>, OutOfMemory>
    ensures says { IfOk result (λ found. IfSome found (λ filed. SaysText newest text.now (Ok filed))) }
{
    match take_file(alloc, newest, text) {
        Ok(filed) => Ok(Some(filed)),
        Err(Stop::OtherForm) => Ok(None),
        Err(Stop::OutOfMemory) => Err(OutOfMemory),
    }
}

/// Reads a file that takes up the whole text.
fn take_file(alloc: Global, newest: Version, text: &str) -> Result<Filed, Stop>
    ensures { IfOk result (λ filed. SaysText newest text.now (Ok filed)) }
{
    let mut cursor = TokenCursor::new(text);
    cursor.begin_object()?;
    let content = take_content(alloc, newest, &mut cursor)?;
    if !cursor.is_at_end() {
        return Err(Stop::OtherForm);
    }
    let filed = filed_of(alloc, content)?;
    Ok(filed)
}

/// What a file has, before it is known whether its nodes and links are a graph.
#[derive(Drop)]
struct Content {
    version: Version,
    moment: u32,
    nodes: Seq<NodeId>,
    links: Seq<(NodeId, NodeId)>,
    /// The group, if it is named.
    group: Option<Seq<NodeId>>,
    cert: Cert,
}

/// The file with this content, if its nodes and links are a graph.
fn filed_of(alloc: Global, content: Content) -> Result<Filed, Stop>
    ensures filed { IfOk result (λ f. f ≡ filed_in content) }
    ensures graph { OnOk result (IsGraphWithin content.version (graph_in content)) }
{
    let Content {
        version,
        moment,
        nodes,
        links,
        group,
        cert,
    } = content;
    let graph = graph_of(alloc, version, nodes.as_slice(), links.as_slice())?;
    Ok(Filed {
        moment,
        graph,
        group: group.unwrap_or(nodes),
        cert,
    })
}

/// The graph of these nodes and links, if there is one and the version allows this many nodes.
fn graph_of(
    alloc: Global,
    version: Version,
    nodes: &[NodeId],
    links: &[(NodeId, NodeId)],
) -> Result<Graph, Stop>
    ensures graph { IfOk result (λ g. g ≡ record { nodes = nodes.now; links = links.now }) }
    ensures within { IfOk result (IsGraphWithin version) }
{
    if nodes.len() > version.most_nodes() {
        return Err(Stop::OtherForm);
    }
    match Graph::large(alloc, nodes, links) {
        Ok(graph) => Ok(graph),
        Err(GraphFault::OutOfMemory) => Err(Stop::OutOfMemory),
        Err(_) => Err(Stop::OtherForm),
    }
}

/// Takes the members of a file, and the brace that closes it.
fn take_content(
    alloc: Global,
    newest: Version,
    cursor: &mut TokenCursor<'_>,
) -> Result<Content, Stop>
    ensures { IfOk result (λ c. TakesContent newest c cursor.old cursor.new) }
{
    if is_at_key(cursor, Key::Cut) {
        take_split(alloc, newest, cursor)
    } else {
        take_linked(alloc, newest, cursor)
    }
}

/// Takes the members of a file with verdict linked.
fn take_linked(
    alloc: Global,
    newest: Version,
    cursor: &mut TokenCursor<'_>,
) -> Result<Content, Stop>
    ensures { IfOk result (λ c. TakesContent newest c cursor.old cursor.new) }
{
    let middle = take_middle(alloc, cursor)?;
    let nodes = take_member(alloc, cursor, Key::Nodes)?;
    let version = take_end(cursor, Verdict::Linked, newest, &middle)?;
    Ok(Content {
        version,
        moment: middle.moment,
        nodes,
        links: middle.links,
        group: middle.group,
        cert: Cert::Linked { k: middle.k },
    })
}

/// Takes the members of a file with verdict split.
fn take_split(alloc: Global, newest: Version, cursor: &mut TokenCursor<'_>) -> Result<Content, Stop>
    ensures { IfOk result (λ c. TakesContent newest c cursor.old cursor.new) }
{
    let first = take_first(alloc, cursor)?;
    let middle = take_middle(alloc, cursor)?;
    let near = take_member(alloc, cursor, Key::Near)?;
    let nodes = take_member(alloc, cursor, Key::Nodes)?;
    let pairs = take_member(alloc, cursor, Key::Pairs)?;
    let side = take_member(alloc, cursor, Key::Side)?;
    let version = take_end(cursor, Verdict::Split, newest, &middle)?;
    let split = Split {
        k: middle.k,
        cut: first.cut,
        near,
        far: first.far,
        side,
        pairs,
        fans: first.fans,
    };
    Ok(Content {
        version,
        moment: middle.moment,
        nodes,
        links: middle.links,
        group: middle.group,
        cert: Cert::Split(split),
    })
}

/// The first members of a file with verdict split: those before the group.
#[derive(Drop)]
struct First {
    cut: Seq<NodeId>,
    fans: Seq<FanPaths>,
    far: NodeId,
}

fn take_first(alloc: Global, cursor: &mut TokenCursor<'_>) -> Result<First, Stop>
    ensures members { IfOk result (λ f. TakesMembers
        (λ ms. member (name_of key.Cut) (ids_data f.cut)
        (member (name_of key.Fans) (list_data fan_data f.fans)
        (member (name_of key.Far) (whole_data f.far) ms)))
        cursor.old cursor.new) }
    ensures cut { IfOk result (λ f. ids_in (ids_data f.cut) ≡ Some f.cut) }
    ensures fans { IfOk result (λ f. fans_in (list_data fan_data f.fans) ≡ Some f.fans) }
    ensures far { IfOk result (λ f. id_in (whole_data f.far) ≡ Some f.far) }
{
    let cut = take_member(alloc, cursor, Key::Cut)?;
    let fans = take_member(alloc, cursor, Key::Fans)?;
    let far = take_member(alloc, cursor, Key::Far)?;
    Ok(First { cut, fans, far })
}

/// The members from the group to the moment.
#[derive(Drop)]
struct Middle {
    group: Option<Seq<NodeId>>,
    k: u32,
    links: Seq<(NodeId, NodeId)>,
    moment: u32,
}

fn take_middle(alloc: Global, cursor: &mut TokenCursor<'_>) -> Result<Middle, Stop>
    ensures members { IfOk result (λ m. TakesMembers
        (λ ms. named_then m.group
        (member (name_of key.K) (whole_data m.k)
        (member (name_of key.Links) (list_data link_data m.links)
        (member (name_of key.Moment) (whole_data m.moment) ms))))
        cursor.old cursor.new) }
    ensures group { IfOk result (λ m. NamedReadsBack m.group) }
    ensures k { IfOk result (λ m. count_in (whole_data m.k) ≡ Some m.k) }
    ensures links { IfOk result (λ m. links_in (list_data link_data m.links) ≡ Some m.links) }
{
    let group = take_group(alloc, cursor)?;
    let k = take_count(cursor, Key::K)?;
    let links = take_member(alloc, cursor, Key::Links)?;
    let moment = take_count(cursor, Key::Moment)?;
    Ok(Middle {
        group,
        k,
        links,
        moment,
    })
}

/// Takes the member of the group, if it is next.
#[tactic(auto, using(crate::proofs::Taking::none_taken))]
fn take_group(alloc: Global, cursor: &mut TokenCursor<'_>) -> Result<Option<Seq<NodeId>>, Stop>
    ensures members { IfOk result (λ group. TakesMembers (named_then group) cursor.old cursor.new) }
    ensures reads_back { IfOk result NamedReadsBack }
{
    if !is_at_key(cursor, Key::Group) {
        return Ok(None);
    }
    let group = take_member(alloc, cursor, Key::Group)?;
    Ok(Some(group))
}

/// Takes the last members of a file, and the brace that closes it. The version is one that suits these members before
/// them.
#[tactic(auto, using(crate::proofs::Taking::end_taken))]
fn take_end(
    cursor: &mut TokenCursor<'_>,
    verdict: Verdict,
    newest: Version,
    middle: &Middle,
) -> Result<Version, Stop>
    ensures taken { IfOk result (λ version. cursor.old ≡ members_tokens (members_outline
        (member (name_of key.Verdict) (string (verdict_text verdict))
        (member (name_of key.Version) (whole_data (version_number version)) no_members))) ++ cursor.new) }
    ensures suits { IfOk result (Suits newest (is_some middle.now.group) middle.now.moment) }
{
    take_key(cursor, Key::Verdict)?;
    take_verdict(cursor, verdict)?;
    let number = take_count(cursor, Key::Version)?;
    let version = version_of(newest, number, middle.group.is_some(), middle.moment)?;
    cursor.end_object()?;
    Ok(version)
}

/// The version with this number, if it is read, and if its files name a group or none, as this one does, and may have
/// this moment.
fn version_of(newest: Version, number: u32, is_named: bool, moment: u32) -> Result<Version, Stop>
    ensures number { IfOk result (λ version. number ≡ version_number version) }
    ensures suits { IfOk result (Suits newest is_named moment) }
{
    let Some(version) = Version::numbered(newest, u64::from(number)) else {
        return Err(Stop::OtherForm);
    };
    if version.names_group() != is_named || u64::from(moment) > version.last_moment() {
        return Err(Stop::OtherForm);
    }
    Ok(version)
}
