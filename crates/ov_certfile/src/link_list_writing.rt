ghost use Rattle.std.specs.Prelude.{◌≡◌, true, OnOk, Some, string_bytes};
ghost use Rattle.serde_json.specs.Data.{member};
ghost use Rattle.ov_certfile.specs.Forms.{links_in};
ghost use Rattle.ov_certfile.specs.Kinds.{name_of};
ghost use Rattle.ov_certfile.specs.DataOf.{list_data, link_data};
ghost use Rattle.ov_certfile.specs.declared.file_keys.Key.TheVariants as key;
ghost use Rattle.ov_certfile.specs.Code.Writing.{WritesValue, WritesMembers};

use crate::field_reading_and_writing::Field;
use crate::file_keys::Key;
use crate::json_member_writing::write_key;
use crate::value_writing::{write_comma, write_mark};
use ov_graph::Graph;
use std::alloc::AllocError;

/// Appends the member of the links of a graph. Members stand before it.
#[tactic(auto, using(crate::proofs::Members::member_written))]
pub(crate) fn write_links(out: &mut String, graph: &Graph) -> Result<(), AllocError>
    ensures members { OnOk result (WritesMembers true
        (member (name_of key.Links) (list_data link_data graph.now.links))
        (string_bytes out.old) (string_bytes out.new)) }
    ensures reads_back { OnOk result (links_in (list_data link_data graph.now.links) ≡ Some graph.now.links) }
{
    write_key(out, true, Key::Links)?;
    write_each_link(out, graph)?;
    Ok(())
}

/// Appends the array of the links of a graph.
fn write_each_link(out: &mut String, graph: &Graph) -> Result<(), AllocError>
    ensures text { OnOk result
        (WritesValue (list_data link_data graph.now.links) (string_bytes out.old) (string_bytes out.new)) }
    ensures reads_back { OnOk result (links_in (list_data link_data graph.now.links) ≡ Some graph.now.links) }
{
    write_mark(out, '[')?;
    let mut later = false;
    for link in graph.links() {
        write_comma(out, later)?;
        link.write_to(out)?;
        later = true;
    }
    write_mark(out, ']')?;
    Ok(())
}
