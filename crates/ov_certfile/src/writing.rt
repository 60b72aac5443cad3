ghost use Rattle.std.specs.Prelude.{◌≡◌, ◌≤◌, true, IfOk, OnOk, string_bytes};
ghost use Rattle.serde_json.specs.Written.{compact_text};
ghost use Rattle.ov_graph.specs.Links.{IsSmall};
ghost use Rattle.ov_certfile.specs.Forms.{last_moment};
ghost use Rattle.ov_certfile.specs.DataOf.{data_of, data_in, can_say, version_for};
ghost use Rattle.ov_certfile.specs.ReadsBack.{ReadsBack, TextReadsBack};
ghost use Rattle.ov_certfile.specs.Code.Writing.{FileReadsBack};
ghost use Rattle.ov_certfile.specs.declared.version.Version.{Version};

use crate::cert_writing::write_file;
use crate::version::Version;
use ov_cert::Cert;
use ov_graph::Graph;
use ov_ids::{NodeId, OutOfMemory};
use std::alloc::Global;

/// The text of the certificate file for the group of all nodes. See `to_text_group`. The moment is at most 65,536.
/// OutOfMemory (99) if an allocation is refused.
pub fn to_text(
    alloc: Global,
    cert: &Cert,
    graph: &Graph,
    moment: u32,
) -> Result<String, OutOfMemory>
    requires { moment ≤ last_moment }
    ensures text { IfOk result (λ s. string_bytes s
        ≡ compact_text (data_of cert.now graph.now graph.now.nodes moment)) }
    ensures object_back { IsSmall graph.now
        → OnOk result (ReadsBack Version.Two cert.now graph.now graph.now.nodes moment) }
    ensures reads_back { IsSmall graph.now
        → IfOk result (λ s. TextReadsBack Version.Two cert.now graph.now graph.now.nodes moment (string_bytes s)) }
{
    to_text_group(alloc, cert, graph, graph.nodes(), moment)
}

/// The text of the certificate file of a certificate, its graph, its group and a moment. The moment is at most 65,536.
/// The text is one JSON object, with its keys in the order of their bytes, without white space or line feed. It is of
/// version 1, which names no group, exactly if the group is all nodes and these are at most 256; otherwise it is of
/// version 2, and, if there are more than 1,024 nodes, of version 3. If there are at most 1,024, reading the text by
/// `from_text` gives all four back. Faults: out of memory (99).
pub fn to_text_group(
    alloc: Global,
    cert: &Cert,
    graph: &Graph,
    group: &[NodeId],
    moment: u32,
) -> Result<String, OutOfMemory>
    requires { moment ≤ last_moment }
    ensures text { IfOk result (λ s. string_bytes s ≡ compact_text (data_of cert.now graph.now group.now moment)) }
    ensures object_back { IsSmall graph.now
        → OnOk result (ReadsBack Version.Two cert.now graph.now group.now moment) }
    ensures reads_back { IsSmall graph.now
        → IfOk result (λ s. TextReadsBack Version.Two cert.now graph.now group.now moment (string_bytes s)) }
{
    written_text(alloc, cert, graph, group, moment)
}

/// Does what `to_text_group` does, for any moment. The text is of version 3 exactly if there are more than 1,024 nodes
/// or the moment is above 65,536, which neither version 1 nor version 2 can say. Reading the text by `from_large_text`
/// gives all four back.
pub fn to_large_text(
    alloc: Global,
    cert: &Cert,
    graph: &Graph,
    group: &[NodeId],
    moment: u32,
) -> Result<String, OutOfMemory>
    ensures text { IfOk result (λ s. string_bytes s ≡ compact_text (data_of cert.now graph.now group.now moment)) }
    ensures object_back { OnOk result (ReadsBack Version.Three cert.now graph.now group.now moment) }
    ensures reads_back { IfOk result
        (λ s. TextReadsBack Version.Three cert.now graph.now group.now moment (string_bytes s)) }
{
    prove!(graph.nodes().len() <= Graph::MOST_OF_ANY);
    written_text(alloc, cert, graph, group, moment)
}

/// The text of the file. Each version that can say this is new enough to read it.
fn written_text(
    alloc: Global,
    cert: &Cert,
    graph: &Graph,
    group: &[NodeId],
    moment: u32,
) -> Result<String, OutOfMemory>
    ensures text { IfOk result (λ s. string_bytes s ≡ compact_text (data_of cert.now graph.now group.now moment)) }
    ensures object_back { (newest : Version) → can_say newest graph.now group.now moment ≡ true
        → OnOk result (ReadsBack newest cert.now graph.now group.now moment) }
    ensures reads_back { (newest : Version) → can_say newest graph.now group.now moment ≡ true
        → IfOk result (λ s. TextReadsBack newest cert.now graph.now group.now moment (string_bytes s)) }
{
    let version = version_for(graph, group, moment);
    let text = text_in(alloc, version, cert, graph, group, moment)?;
    Ok(text)
}

/// The text of the file of this version.
fn text_in(
    alloc: Global,
    version: Version,
    cert: &Cert,
    graph: &Graph,
    group: &[NodeId],
    moment: u32,
) -> Result<String, OutOfMemory>
    ensures text { IfOk result
        (λ s. string_bytes s ≡ compact_text (data_in version cert.now graph.now group.now moment)) }
    ensures reads_back { OnOk result (FileReadsBack version cert.now graph.now group.now) }
{
    let mut text = String::new(alloc);
    write_file(&mut text, version, cert, graph, group, moment)?;
    Ok(text)
}

/// The version that is written for a graph, a group and a moment.
#[tactic(auto, unfolding(crate::specs::DataOf::version_for))]
fn version_for(graph: &Graph, group: &[NodeId], moment: u32) -> Version
    ensures { result ≡ version_for graph.now group.now moment }
{
    if can_say(Version::One, graph, group, moment) {
        return Version::One;
    }
    if can_say(Version::Two, graph, group, moment) {
        Version::Two
    } else {
        Version::Three
    }
}

/// Whether a file of this version can say this graph, this group and this moment.
fn can_say(version: Version, graph: &Graph, group: &[NodeId], moment: u32) -> bool
    ensures { result ≡ can_say version graph.now group.now moment }
{
    let nodes = graph.nodes();
    if !version.names_group() && group != nodes {
        return false;
    }
    nodes.len() <= version.most_nodes() && u64::from(moment) <= version.last_moment()
}
