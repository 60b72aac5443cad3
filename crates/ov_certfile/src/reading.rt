ghost use Rattle.std.specs.Prelude.{◌≡◌, ◌≢◌, [], ◌∷◌, None, Some, Result, Ok, Err, IfOk, IfErr, codes};
ghost use Rattle.std.specs.Prelude.{MatchOption, MatchResult};
ghost use Rattle.serde_json.specs.View.{view};
ghost use Rattle.serde_json.specs.Read.{read};
ghost use Rattle.ov_graph.specs.Links.{LinkGraph};
ghost use Rattle.ov_certfile.specs.declared.file_keys.Key.TheVariants as key;
ghost use Rattle.ov_certfile.specs.declared.fault.FileFault.{FileFault};
ghost use Rattle.ov_certfile.specs.FaultKinds.{kind_of, kind_in, NotJson};
ghost use Rattle.ov_certfile.specs.Keys.{said};
ghost use Rattle.ov_certfile.specs.Kinds.{version_in, version_keys, verdict_keys};
ghost use Rattle.ov_certfile.specs.Demands.{FileGraphJudged};
ghost use Rattle.ov_certfile.specs.Says.{SaysFile, SaysText};
ghost use Rattle.ov_certfile.specs.Code.Reading.{IsHeaded, IsListed, IsNamed, IsCert, LacksForm, IsGraphFault};

use crate::fault::FileFault;
use crate::field_reading_and_writing::{read_at, whole_at};
use crate::file_keys::Key;
use crate::linked_or_split::Verdict;
use crate::no_json::NoJson;
use crate::token_reading::in_form;
use crate::version::Version;
use crate::version_and_verdict_reading::heading_of;
use ov_cert::{Cert, Split};
use ov_graph::{Graph, GraphFault};
use ov_ids::{NUMBER_LIMIT, NodeId, Seq};
use serde_json::Value;
use std::alloc::Global;

/// The content of a certificate file.
#[derive(Drop)]
pub struct Filed {
    /// The number of the entry of the journal to which the graph belongs, in versions 1 and 2 at most 65,536. It is 0
    /// if the graph comes from no journal.
    pub moment: u32,
    pub graph: Graph,
    /// The nodes that must stay joined, as listed in the file. They need not be a group of the graph.
    pub group: Seq<NodeId>,
    pub cert: Cert,
}

/// Reads a certificate file of version 1 or 2. In version 1 the group is all nodes. It is not checked whether the group
/// is a group of the graph, nor whether the certificate is valid. Of several faults, the first in this order is
/// returned:
///
/// 1. `NotJson` (60): the text is not JSON;
/// 2. `BadValue` (63): it is not an object;
/// 3. `MissingKey` (61): it has no `version`; `BadVersion` (64): its version is not the whole number 1 or 2;
/// 4. `MissingKey` (61): it has no `verdict`; `BadValue` (63): its verdict is neither `"linked"` nor `"split"`;
/// 5. `MissingKey` (61): it lacks a key of its version and verdict;
/// 6. `UnknownKey` (62): it has any other key;
/// 7. `BadValue` (63): a value does not have the form of its key;
/// 8. `Graph` of `TooManyNodes` (31): it has more nodes than its version allows, 256 in version 1 and 1,024 in version
///    2;
/// 9. `Graph` of the fault of `Graph::new` (31 to 33): the nodes and links are not a graph.
///
/// `OutOfMemory` (99) is returned as soon as an allocation fails.
pub fn from_text(alloc: Global, text: &str) -> Result<Filed, FileFault>
    ensures says { result ≢ Err FileFault.OutOfMemory → SaysText Version.Two text.now result }
    ensures only { (answer : Result Filed FileFault) → result ≢ Err FileFault.OutOfMemory
        → SaysText Version.Two text.now answer → kind_in answer ≡ kind_in result }
{
    filed_or_fault(alloc, Version::Two, text)
}

/// Reads a certificate file of version 1, 2 or 3. It does what `from_text` does, and reads version 3 too, with up to
/// 32,768 nodes and a moment of up to 4,294,967,295.
pub fn from_large_text(alloc: Global, text: &str) -> Result<Filed, FileFault>
    ensures says { result ≢ Err FileFault.OutOfMemory → SaysText Version.Three text.now result }
    ensures only { (answer : Result Filed FileFault) → result ≢ Err FileFault.OutOfMemory
        → SaysText Version.Three text.now answer → kind_in answer ≡ kind_in result }
{
    filed_or_fault(alloc, Version::Three, text)
}

/// Reads a certificate file, where this is the newest version that is read.
fn filed_or_fault(alloc: Global, newest: Version, text: &str) -> Result<Filed, FileFault>
    ensures says { result ≢ Err FileFault.OutOfMemory → SaysText newest text.now result }
    ensures only { (answer : Result Filed FileFault) → result ≢ Err FileFault.OutOfMemory
        → SaysText newest text.now answer → kind_in answer ≡ kind_in result }
{
    match filed_or_refusal(alloc, newest, text) {
        Ok(filed) => Ok(filed),
        Err(refusal) => Err(refusal.fault),
    }
}

/// Why a text is no certificate file.
#[derive(Drop)]
pub struct RefusedFile {
    /// The first fault.
    pub fault: FileFault,
    /// The JSON value in the text, if there is one.
    pub value: Option<Value>,
}

/// Does what `from_text` does, or with the newest version `Three` what `from_large_text` does, and keeps the JSON value
/// of a text that is refused. A text without a fault that is written as `to_text` writes it is read token by token, any
/// other by its JSON value.
pub fn filed_or_refusal(alloc: Global, newest: Version, text: &str) -> Result<Filed, RefusedFile>
    ensures filed { IfOk result (λ filed. SaysText newest text.now (Ok filed)) }
    ensures fault { IfErr result (λ refusal. refusal.fault ≢ FileFault.OutOfMemory
        → SaysText newest text.now (Err refusal.fault)) }
    ensures value { IfErr result (λ refusal. refusal.fault ≢ FileFault.OutOfMemory
        → MatchOption refusal.value (read text.now ≡ None) (λ value. read text.now ≡ Some (view value))) }
{
    match in_form(alloc, newest, text) {
        Ok(Some(filed)) => Ok(filed),
        Ok(None) => by_json(alloc, newest, text),
        Err(_) => Err(RefusedFile {
            fault: FileFault::OutOfMemory,
            value: None,
        }),
    }
}

/// Does what `filed_or_refusal` does, by the JSON value of the text.
fn by_json(alloc: Global, newest: Version, text: &str) -> Result<Filed, RefusedFile>
    ensures filed { IfOk result (λ filed. SaysText newest text.now (Ok filed)) }
    ensures fault { IfErr result (λ refusal. refusal.fault ≢ FileFault.OutOfMemory
        → SaysText newest text.now (Err refusal.fault)) }
    ensures value { IfErr result (λ refusal. refusal.fault ≢ FileFault.OutOfMemory
        → MatchOption refusal.value (read text.now ≡ None) (λ value. read text.now ≡ Some (view value))) }
{
    match json_in(alloc, text) {
        Ok(value) => by_value(alloc, newest, value),
        Err(fault) => Err(RefusedFile { fault, value: None }),
    }
}

/// The JSON value in a text. NotJson (60): there is none. OutOfMemory (99): an allocation was refused.
fn json_in(alloc: Global, text: &str) -> Result<Value, FileFault>
    ensures { MatchResult result (λ value. read text.now ≡ Some (view value))
        (λ fault. fault ≢ FileFault.OutOfMemory → (read text.now ≡ None) × (kind_of fault ≡ NotJson)) }
{
    match Value::from_str(alloc, text) {
        Ok(value) => Ok(value),
        Err(error) if error.is_memory() => Err(FileFault::OutOfMemory),
        Err(error) => Err(FileFault::NotJson(NoJson::of(text, &error))),
    }
}

/// Reads a file from its JSON value, which is kept if it is refused.
fn by_value(alloc: Global, newest: Version, value: Value) -> Result<Filed, RefusedFile>
    ensures filed { IfOk result (λ filed. SaysFile newest (view value) (Ok filed)) }
    ensures fault { IfErr result (λ refusal. refusal.fault ≢ FileFault.OutOfMemory
        → SaysFile newest (view value) (Err refusal.fault)) }
    ensures value { IfErr result (λ refusal. refusal.value ≡ Some value) }
{
    match from_value(alloc, newest, &value) {
        Ok(filed) => Ok(filed),
        Err(fault) => Err(RefusedFile {
            fault,
            value: Some(value),
        }),
    }
}

/// Reads a certificate file from its JSON value. The faults are those of `from_text`, except NotJson.
fn from_value(alloc: Global, newest: Version, value: &Value) -> Result<Filed, FileFault>
    ensures { result ≢ Err FileFault.OutOfMemory → SaysFile newest (view value.now) result }
{
    let (version, verdict) = heading_of(newest, value)?;
    values(alloc, newest, version, verdict, value)
}

/// The content of a file with this heading.
fn values(
    alloc: Global,
    newest: Version,
    version: Version,
    verdict: Verdict,
    value: &Value,
) -> Result<Filed, FileFault>
    ensures { IsHeaded newest version verdict (view value.now) → result ≢ Err FileFault.OutOfMemory
        → SaysFile newest (view value.now) result }
{
    let k = whole_at(value, Key::K, NUMBER_LIMIT - 1)?;
    let listed = lists_of(alloc, version, value)?;
    let group = named_group(alloc, version, value)?;
    let cert = cert(alloc, verdict, k, value)?;
    let graph = graph(
        alloc,
        version,
        listed.nodes.as_slice(),
        listed.links.as_slice(),
    )?;
    Ok(Filed {
        moment: listed.moment,
        graph,
        group: group.unwrap_or(listed.nodes),
        cert,
    })
}

/// The moment, the nodes and the links of a file.
#[derive(Drop)]
struct Listed {
    moment: u32,
    nodes: Seq<NodeId>,
    links: Seq<(NodeId, NodeId)>,
}

fn lists_of(alloc: Global, version: Version, value: &Value) -> Result<Listed, FileFault>
    ensures { said version_in (codes "version") (view value.now) ≡ Some version
        → MatchResult result (IsListed version (view value.now))
        (LacksForm (key.Links ∷ key.Moment ∷ key.Nodes ∷ []) (view value.now)) }
{
    let links = read_at(alloc, value, Key::Links)?;
    let moment = whole_at(value, Key::Moment, version.last_moment())?;
    let nodes = read_at(alloc, value, Key::Nodes)?;
    Ok(Listed {
        moment,
        nodes,
        links,
    })
}

/// The group that a file names, if its version names one.
fn named_group(
    alloc: Global,
    version: Version,
    value: &Value,
) -> Result<Option<Seq<NodeId>>, FileFault>
    ensures { MatchResult result (IsNamed version (view value.now))
        (LacksForm (version_keys version) (view value.now)) }
{
    if !version.names_group() {
        return Ok(None);
    }
    let group = read_at(alloc, value, Key::Group)?;
    Ok(Some(group))
}

/// The graph of these nodes and links, if the version allows this many nodes.
fn graph(
    alloc: Global,
    version: Version,
    nodes: &[NodeId],
    links: &[(NodeId, NodeId)],
) -> Result<Graph, FileFault>
    ensures graph { IfOk result (λ g. g ≡ record { nodes = nodes.now; links = links.now }) }
    ensures judged { let given : LinkGraph = record { nodes = nodes.now; links = links.now }
        in MatchResult result (λ _. FileGraphJudged version given None) (IsGraphFault version given) }
{
    let count = nodes.len();
    let most = version.most_nodes();
    if count > most {
        return Err(FileFault::Graph(GraphFault::TooManyNodes { count, most }));
    }
    match Graph::large(alloc, nodes, links) {
        Ok(graph) => Ok(graph),
        Err(GraphFault::OutOfMemory) => Err(FileFault::OutOfMemory),
        Err(fault) => Err(FileFault::Graph(fault)),
    }
}

/// The certificate of a file with this k.
fn cert(alloc: Global, verdict: Verdict, k: u32, value: &Value) -> Result<Cert, FileFault>
    ensures { MatchResult result (IsCert verdict k (view value.now))
        (LacksForm (verdict_keys verdict) (view value.now)) }
{
    match verdict {
        Verdict::Linked => Ok(Cert::Linked { k }),
        Verdict::Split => split(alloc, k, value),
    }
}

fn split(alloc: Global, k: u32, value: &Value) -> Result<Cert, FileFault>
    ensures { MatchResult result (IsCert Verdict.Split k (view value.now))
        (LacksForm (verdict_keys Verdict.Split) (view value.now)) }
{
    let cut = read_at(alloc, value, Key::Cut)?;
    let near = read_at(alloc, value, Key::Near)?;
    let far = read_at(alloc, value, Key::Far)?;
    let side = read_at(alloc, value, Key::Side)?;
    let pairs = read_at(alloc, value, Key::Pairs)?;
    let fans = read_at(alloc, value, Key::Fans)?;
    Ok(Cert::Split(Split {
        k,
        cut,
        near,
        far,
        side,
        pairs,
        fans,
    }))
}
