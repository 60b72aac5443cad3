//! The object of a file, appended to a text. Its keys are in the order of their bytes.
ghost use Rattle.std.specs.Prelude.{◌≡◌, ◌++◌, true, false, OnOk, Some, string_bytes};
ghost use Rattle.serde_json.specs.Data.{string, no_members, member};
ghost use Rattle.serde_json.specs.Written.{members_text};
ghost use Rattle.ov_cert.specs.declared.cert.Cert.TheVariants as cert;
ghost use Rattle.ov_certfile.specs.Forms.{count_in, id_in, ids_in, pairs_in, fans_in};
ghost use Rattle.ov_certfile.specs.Kinds.{name_of, verdict_text, version_number};
ghost use Rattle.ov_certfile.specs.DataOf.{whole_data, ids_data, list_data, pair_data, fan_data, data_in, group_then};
ghost use Rattle.ov_certfile.specs.declared.file_keys.Key.TheVariants as key;
ghost use Rattle.ov_certfile.specs.Code.Writing.{WritesValue, WritesMembers, GroupReadsBack, FileReadsBack};

use crate::file_keys::Key;
use crate::json_member_writing::{
    write_count, write_field, write_ids, write_verdict, write_version,
};
use crate::link_list_writing::write_links;
use crate::linked_or_split::Verdict;
use crate::value_writing::write_mark;
use crate::version::Version;
use ov_cert::{Cert, Split};
use ov_graph::Graph;
use ov_ids::NodeId;
use std::alloc::AllocError;

/// Appends the object of a file of this version.
pub(crate) fn write_file(
    out: &mut String,
    version: Version,
    cert: &Cert,
    graph: &Graph,
    group: &[NodeId],
    moment: u32,
) -> Result<(), AllocError>
    ensures text { OnOk result (WritesValue (data_in version cert.now graph.now group.now moment)
        (string_bytes out.old) (string_bytes out.new)) }
    ensures reads_back { OnOk result (FileReadsBack version cert.now graph.now group.now) }
{
    match cert {
        Cert::Linked { k } => write_linked(out, version, *k, graph, group, moment),
        Cert::Split(split) => write_split(out, version, split, graph, group, moment),
    }
}

/// Appends the object of a file with verdict linked.
fn write_linked(
    out: &mut String,
    version: Version,
    k: u32,
    graph: &Graph,
    group: &[NodeId],
    moment: u32,
) -> Result<(), AllocError>
    ensures text { OnOk result (WritesValue (data_in version (cert.Linked k) graph.now group.now moment)
        (string_bytes out.old) (string_bytes out.new)) }
    ensures reads_back { OnOk result (FileReadsBack version (cert.Linked k) graph.now group.now) }
{
    write_mark(out, '{')?;
    write_group_and_k(out, false, version, group, k)?;
    write_links(out, graph)?;
    write_count(out, true, Key::Moment, moment)?;
    write_ids(out, true, Key::Nodes, graph.nodes())?;
    write_end(out, Verdict::Linked, version)?;
    Ok(())
}

/// Appends the object of a file with verdict split.
fn write_split(
    out: &mut String,
    version: Version,
    split: &Split,
    graph: &Graph,
    group: &[NodeId],
    moment: u32,
) -> Result<(), AllocError>
    ensures text { OnOk result (WritesValue (data_in version (cert.Split split.now) graph.now group.now moment)
        (string_bytes out.old) (string_bytes out.new)) }
    ensures reads_back { OnOk result (FileReadsBack version (cert.Split split.now) graph.now group.now) }
{
    write_mark(out, '{')?;
    write_cut_and_fans(out, split)?;
    write_group_and_k(out, true, version, group, split.k)?;
    write_links(out, graph)?;
    write_count(out, true, Key::Moment, moment)?;
    write_field(out, true, Key::Near, &split.near)?;
    write_ids(out, true, Key::Nodes, graph.nodes())?;
    write_pairs_and_side(out, split)?;
    write_end(out, Verdict::Split, version)?;
    Ok(())
}

/// Appends the first members of a file with verdict split: those before the group.
fn write_cut_and_fans(out: &mut String, split: &Split) -> Result<(), AllocError>
    ensures members { OnOk result (WritesMembers false
        (λ ms. member (name_of key.Cut) (ids_data split.now.cut)
        (member (name_of key.Fans) (list_data fan_data split.now.fans)
        (member (name_of key.Far) (whole_data split.now.far) ms)))
        (string_bytes out.old) (string_bytes out.new)) }
    ensures cut { OnOk result (ids_in (ids_data split.now.cut) ≡ Some split.now.cut) }
    ensures fans { OnOk result (fans_in (list_data fan_data split.now.fans) ≡ Some split.now.fans) }
    ensures far { OnOk result (id_in (whole_data split.now.far) ≡ Some split.now.far) }
{
    write_field(out, false, Key::Cut, &split.cut)?;
    write_field(out, true, Key::Fans, &split.fans)?;
    write_field(out, true, Key::Far, &split.far)?;
    Ok(())
}

/// Appends the group, if the version names one, and k.
fn write_group_and_k(
    out: &mut String,
    later: bool,
    version: Version,
    group: &[NodeId],
    k: u32,
) -> Result<(), AllocError>
    ensures members { OnOk result (WritesMembers later
        (λ ms. group_then version group.now (member (name_of key.K) (whole_data k) ms))
        (string_bytes out.old) (string_bytes out.new)) }
    ensures group { OnOk result (GroupReadsBack version group.now) }
    ensures count { OnOk result (count_in (whole_data k) ≡ Some k) }
{
    if !version.names_group() {
        write_count(out, later, Key::K, k)?;
        return Ok(());
    }
    write_ids(out, later, Key::Group, group)?;
    write_count(out, true, Key::K, k)?;
    Ok(())
}

/// Appends the pairs and the side.
fn write_pairs_and_side(out: &mut String, split: &Split) -> Result<(), AllocError>
    ensures members { OnOk result (WritesMembers true
        (λ ms. member (name_of key.Pairs) (list_data pair_data split.now.pairs)
        (member (name_of key.Side) (ids_data split.now.side) ms))
        (string_bytes out.old) (string_bytes out.new)) }
    ensures pairs { OnOk result (pairs_in (list_data pair_data split.now.pairs) ≡ Some split.now.pairs) }
    ensures side { OnOk result (ids_in (ids_data split.now.side) ≡ Some split.now.side) }
{
    write_field(out, true, Key::Pairs, &split.pairs)?;
    write_field(out, true, Key::Side, &split.side)?;
    Ok(())
}

/// Appends the verdict and the version, and ends the object.
fn write_end(out: &mut String, verdict: Verdict, version: Version) -> Result<(), AllocError>
    ensures { OnOk result (string_bytes out.new ≡ string_bytes out.old ++ members_text true
        (member (name_of key.Verdict) (string (verdict_text verdict))
        (member (name_of key.Version) (whole_data (version_number version)) no_members))) }
{
    write_verdict(out, verdict)?;
    write_version(out, version)?;
    write_mark(out, '}')?;
    Ok(())
}
