ghost use Rattle.std.specs.Prelude.{◌≡◌, ◌<◌, ◌++◌, decimal, OnOk};
ghost use Rattle.ov_ids.specs.Limits.{number_limit};
ghost use Rattle.ov_graphfile.specs.GraphTexts.{link_line, named_node_line, node_line};

use itoa::Buffer;
use ov_ids::NodeId;
use std::alloc::AllocError;

/// Appends the number of a node.
fn write_id(text: &mut Vec<u8>, id: NodeId) -> Result<(), AllocError>
    ensures items { OnOk result (text.new.items ≡ text.old.items ++ decimal id) }
    ensures low { id < number_limit }
{
    let mut digits = Buffer::new();
    text.extend_from_slice(digits.format(id.0).as_bytes())?;
    Ok(())
}

/// Appends the line of a node.
pub(crate) fn write_node(text: &mut Vec<u8>, node: NodeId) -> Result<(), AllocError>
    ensures items { OnOk result (text.new.items ≡ text.old.items ++ node_line node) }
    ensures low { OnOk result (node < number_limit) }
{
    text.extend_from_slice(b"node ")?;
    write_id(text, node)?;
    text.push(b'\n')?;
    Ok(())
}

/// Appends a comment that says a node and its name, and the line of the node.
pub(crate) fn write_named_node(
    text: &mut Vec<u8>,
    node: NodeId,
    name: &str,
) -> Result<(), AllocError>
    ensures items { OnOk result (text.new.items ≡ text.old.items ++ named_node_line (node, name.now)) }
    ensures low { OnOk result (node < number_limit) }
{
    text.extend_from_slice(b"# ")?;
    write_id(text, node)?;
    text.push(b' ')?;
    text.extend_from_slice(name.as_bytes())?;
    text.push(b'\n')?;
    write_node(text, node)?;
    Ok(())
}

/// Appends the line of a link.
pub(crate) fn write_link(text: &mut Vec<u8>, from: NodeId, to: NodeId) -> Result<(), AllocError>
    ensures { OnOk result (text.new.items ≡ text.old.items ++ link_line (from, to)) }
{
    text.extend_from_slice(b"link ")?;
    write_id(text, from)?;
    text.push(b' ')?;
    write_id(text, to)?;
    text.push(b'\n')?;
    Ok(())
}
