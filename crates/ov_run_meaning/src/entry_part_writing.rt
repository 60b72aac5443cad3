//! The parts of the line of an accepted event, each appended to a text, which grows if it has no room.
ghost use Rattle.std.specs.Prelude.{◌≡◌, ◌++◌, OnOk, codes, decimal, flat_map, string_bytes};
ghost use Rattle.ov_run_meaning.specs.Printed.{change_text, delivery_text};

use itoa::Buffer;
use ov_ids::OutOfMemory;
use ov_net::Change;
use ov_peer::Delivery;

/// Appends these words and a number. OutOfMemory (99) is returned if the text may not grow.
pub(crate) fn write_number(line: &mut String, words: &str, number: u32) -> Result<(), OutOfMemory>
    ensures { OnOk result (string_bytes line.new ≡ string_bytes line.old ++ (words.now ++ decimal number)) }
{
    let mut digits = Buffer::new();
    line.push_str(words)?;
    Ok(line.push_str(digits.format(number))?)
}

/// Appends these words and two numbers, with a space between. OutOfMemory (99) is returned if the text may not grow.
fn write_pair(line: &mut String, words: &str, first: u32, second: u32) -> Result<(), OutOfMemory>
    ensures { OnOk result (string_bytes line.new
        ≡ string_bytes line.old ++ (words.now ++ (decimal first ++ (codes " " ++ decimal second)))) }
{
    write_number(line, words, first)?;
    write_number(line, " ", second)
}

/// Appends a change, with a space before it. OutOfMemory (99) is returned if the text may not grow.
#[tactic(auto, unfolding(crate::specs::Printed::change_text))]
fn write_change(line: &mut String, change: Change) -> Result<(), OutOfMemory>
    ensures { OnOk result (string_bytes line.new ≡ string_bytes line.old ++ change_text change) }
{
    match change {
        Change::Born(node) => write_number(line, " born ", node.number()),
        Change::Up(node, other) => write_pair(line, " up ", node.number(), other.number()),
        Change::Down(node, other) => write_pair(line, " down ", node.number(), other.number()),
        Change::Gone(node) => write_number(line, " gone ", node.number()),
    }
}

/// Appends the changes in order, each with a space before it. OutOfMemory (99) is returned if the text may not grow.
pub(crate) fn write_changes(line: &mut String, changes: &[Change]) -> Result<(), OutOfMemory>
    ensures { OnOk result (string_bytes line.new ≡ string_bytes line.old ++ flat_map change_text changes.now) }
{
    for change in changes {
        write_change(line, *change)?;
    }
    Ok(())
}

/// Appends what was delivered, with a space before it, or nothing if nothing was. OutOfMemory (99) is returned if the
/// text may not grow.
pub(crate) fn write_delivery(
    line: &mut String,
    delivery: &Option<Delivery>,
) -> Result<(), OutOfMemory>
    ensures { OnOk result (string_bytes line.new ≡ string_bytes line.old ++ delivery_text delivery.now) }
{
    let Some(delivery) = delivery else {
        return Ok(());
    };
    let node = delivery.node.number();
    let origin = delivery.id.origin.number();
    write_pair(line, " delivered ", node, origin)?;
    write_number(line, " ", delivery.id.seq)
}
