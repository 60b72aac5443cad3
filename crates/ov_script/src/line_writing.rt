//! The lines of a script, each appended to a text that has room for it.
ghost use Rattle.std.specs.Prelude.{◌≡◌, ◌<◌, ◌≤◌, ◌+◌, ◌∷◌, ◌++◌, length, decimal, vec_len};
ghost use Rattle.ov_ids.specs.Limits.{number_limit};
ghost use Rattle.std.specs.Prelude.{IfOk, OnOk, vec_capacity};
ghost use Rattle.ov_ids.specs.ParamsState.{AreWithinLimits};
ghost use Rattle.ov_script.specs.Acts.{act_line};
ghost use Rattle.ov_script.specs.Scripts.{opening};
ghost use Rattle.ov_script.specs.WrittenLines.{comment_line, ended, line_of, numerals, params_line, rule_text};
ghost use Rattle.ov_script.specs.WrittenLines.{scale_text};
ghost use Rattle.ov_script.specs.WrittenLines as spec;
ghost use Rattle.ov_script.specs.Code.Kept.{line_kept, written};
ghost use Rattle.ov_script.specs.Code.Writing.{IsShort, line_room, number_room, params_room, room_of, rule_room};
ghost use Rattle.ov_script.specs.Code.Writing.{scale_room};
ghost use Rattle.ov_script.specs.declared.recordable_event.Act.TheVariants as act;

use crate::line_to_write::KeptLine;
use crate::recordable_event::Act;
use itoa::Buffer;
use ov_ids::{NodeId, OutOfMemory, Params, Refill, Scale};
use std::alloc::Global;

/// How many bytes of room are enough for the line of any act or analysis. (Chosen here.)
const LINE_ROOM: usize = 80;

/// How many bytes a script begins with at most, besides what its heading says.
const OPENING_ROOM: usize = 220;

/// The text with which a script begins: the heading as a comment, the parameters, the seed, and the rule at DISCONNECT
/// and the scale unless they are the profile's. OutOfMemory (99) is returned if an allocation was refused.
pub(crate) fn opening_text(
    alloc: Global,
    heading: &[u8],
    params: Params,
    seed: u64,
) -> Result<Vec<u8>, OutOfMemory>
    ensures { IfOk result (λ text. text.items ≡ opening heading.now params seed) }
{
    let mut text = Vec::with_capacity(alloc, heading.len() + OPENING_ROOM)?;
    write_comment(&mut text, heading);
    write_params(&mut text, params);
    write_line(&mut text, b"seed", &[seed]);
    write_refill(&mut text, params.refill());
    write_scale(&mut text, params.scale());
    Ok(text)
}

/// Appends these lines, each with its line feed. OutOfMemory (99) is returned if an allocation was refused.
#[tactic(auto, unfolding(crate::specs::Code::Kept::written))]
pub(crate) fn write_lines(text: &mut Vec<u8>, lines: &[KeptLine]) -> Result<(), OutOfMemory>
    ensures { OnOk result (text.new.items ≡ text.old.items ++ written lines.now) }
{
    for line in lines {
        write_kept(text, line)?;
    }
    Ok(())
}

/// Appends the line that is kept, with its line feed. OutOfMemory (99) is returned if an allocation was refused.
#[tactic(auto, unfolding(crate::specs::WrittenLines::analysis_line))]
fn write_kept(text: &mut Vec<u8>, line: &KeptLine) -> Result<(), OutOfMemory>
    ensures { OnOk result (text.new.items ≡ text.old.items ++ ended (line_kept line.now)) }
{
    match line {
        KeptLine::Act(act) => {
            text.reserve(LINE_ROOM)?;
            write_act(text, act);
        }
        KeptLine::Analysis(moment) => {
            text.reserve(LINE_ROOM)?;
            write_line(text, b"analyse", &[*moment as u64]);
        }
        KeptLine::Comment(said) => {
            text.reserve(said.as_slice().len() + 3)?;
            write_comment(text, said.as_slice());
        }
    }
    Ok(())
}

/// Appends these bytes.
fn append(text: &mut Vec<u8>, bytes: &[u8])
    requires room { vec_len text.old + length bytes.now ≤ vec_capacity text.old }
    ensures items { text.new.items ≡ text.old.items ++ bytes.now }
    ensures len { vec_len text.new ≡ vec_len text.old + length bytes.now }
    ensures capacity { vec_capacity text.old ≤ vec_capacity text.new }
{
    match text.extend_from_slice(bytes) {
        Ok(()) => (),
        Err(_) => unreachable!(),
    }
}

/// Appends a space and a number.
fn write_number(text: &mut Vec<u8>, number: u64)
    requires room { vec_len text.old + number_room ≤ vec_capacity text.old }
    ensures items { text.new.items ≡ text.old.items ++ 32 ∷ decimal number }
    ensures len { vec_len text.new ≤ vec_len text.old + number_room }
    ensures capacity { vec_capacity text.old ≤ vec_capacity text.new }
{
    let mut digits = Buffer::new();
    text.push_reserved(b' ');
    append(text, digits.format(number).as_bytes());
}

/// Appends a name, and each of these numbers after a space.
fn write_words(text: &mut Vec<u8>, name: &[u8], numbers: &[u64])
    requires room { vec_len text.old + room_of name.now numbers.now ≤ vec_capacity text.old }
    ensures items { text.new.items ≡ text.old.items ++ line_of name.now (numerals numbers.now) }
    ensures len { vec_len text.new ≤ vec_len text.old + room_of name.now numbers.now }
    ensures capacity { vec_capacity text.old ≤ vec_capacity text.new }
{
    append(text, name);
    for number in numbers {
        write_number(text, *number);
    }
}

/// Appends a line of a name and these numbers.
fn write_line(text: &mut Vec<u8>, name: &[u8], numbers: &[u64])
    requires room { vec_len text.old + (room_of name.now numbers.now + 1) ≤ vec_capacity text.old }
    ensures items { text.new.items ≡ text.old.items ++ ended (line_of name.now (numerals numbers.now)) }
    ensures len { vec_len text.new ≤ vec_len text.old + (room_of name.now numbers.now + 1) }
    ensures capacity { vec_capacity text.old ≤ vec_capacity text.new }
{
    write_words(text, name, numbers);
    text.push_reserved(b'\n');
}

/// Appends the line of these parameters.
#[tactic(auto, unfolding(crate::specs::WrittenLines::params_line))]
fn write_params(text: &mut Vec<u8>, params: Params)
    requires room { vec_len text.old + params_room ≤ vec_capacity text.old }
    ensures items { text.new.items ≡ text.old.items ++ ended (params_line params) }
    ensures limits { AreWithinLimits params }
    ensures len { vec_len text.new ≤ vec_len text.old + params_room }
    ensures capacity { vec_capacity text.old ≤ vec_capacity text.new }
{
    let numbers = [
        params.active() as u64,
        params.passive() as u64,
        params.arwl() as u64,
        params.prwl() as u64,
        params.ka() as u64,
        params.kp() as u64,
        params.shuffle_ttl() as u64,
    ];
    write_line(text, b"params", &numbers);
}

/// Appends the line of this rule at DISCONNECT, or nothing if it is the profile's rule.
#[tactic(auto, unfolding(crate::specs::WrittenLines::rule_text))]
fn write_refill(text: &mut Vec<u8>, rule: Refill)
    requires room { vec_len text.old + rule_room ≤ vec_capacity text.old }
    ensures items { text.new.items ≡ text.old.items ++ rule_text rule }
    ensures len { vec_len text.new ≤ vec_len text.old + rule_room }
    ensures capacity { vec_capacity text.old ≤ vec_capacity text.new }
{
    match rule {
        Refill::Never => (),
        Refill::Alone => append(text, b"refill alone\n"),
        Refill::Always => append(text, b"refill always\n"),
    }
}

/// Appends the line of this scale, or nothing if it is the profile's.
#[tactic(auto, unfolding(crate::specs::WrittenLines::scale_text))]
fn write_scale(text: &mut Vec<u8>, scale: Scale)
    requires room { vec_len text.old + scale_room ≤ vec_capacity text.old }
    ensures items { text.new.items ≡ text.old.items ++ scale_text scale }
{
    match scale {
        Scale::Profile => (),
        Scale::Large => append(text, b"scale large\n"),
    }
}

/// Appends the line of the birth of a node, which joins by a contact if there is one.
#[tactic(auto, unfolding(crate::specs::Acts::act_line))]
fn write_boot(text: &mut Vec<u8>, node: NodeId, contact: Option<NodeId>)
    requires room { vec_len text.old + line_room ≤ vec_capacity text.old }
    ensures items { text.new.items ≡ text.old.items ++ ended (act_line (act.Boot node contact)) }
{
    match contact {
        None => write_line(text, b"boot", &[node.0 as u64]),
        Some(contact) => {
            write_words(text, b"boot", &[node.0 as u64]);
            write_line(text, b" by", &[contact.0 as u64]);
        }
    }
}

/// Each number of an act is below 2^32. Nothing is done.
pub(crate) fn short_numbers(act: &Act)
    ensures { IsShort act.now }
{
    match act {
        Act::Boot(node, contact) => short_birth(*node, *contact),
        Act::Deliver(place) => short_number(*place),
        Act::Lose(place) => short_number(*place),
        Act::Repeat(place) => short_number(*place),
        Act::Crash(node) => short_number(node.0),
        Act::CrashReport(node, crashed) => {
            short_number(node.0);
            short_number(crashed.0);
        }
        Act::Shuffle(node) => short_number(node.0),
        Act::Broadcast(node) => short_number(node.0),
        Act::Timer(node, id) => {
            short_number(node.0);
            short_number(id.origin.0);
            short_number(id.seq);
        }
        Act::Snapshot => (),
    }
}

/// The same of a birth.
fn short_birth(node: NodeId, contact: Option<NodeId>)
    ensures { IsShort (act.Boot node contact) }
{
    match contact {
        None => short_number(node.0),
        Some(contact) => {
            short_number(node.0);
            short_number(contact.0);
        }
    }
}

/// The same of a number.
fn short_number(number: u32)
    ensures { number < number_limit }
{
    let _ = number;
}

/// Appends the line of an act.
#[tactic(auto, unfolding(crate::specs::Acts::act_line))]
fn write_act(text: &mut Vec<u8>, act: &Act)
    requires room { vec_len text.old + line_room ≤ vec_capacity text.old }
    ensures items { text.new.items ≡ text.old.items ++ ended (act_line act.now) }
{
    match act {
        Act::Boot(node, contact) => write_boot(text, *node, *contact),
        Act::Deliver(place) => write_line(text, b"deliver", &[*place as u64]),
        Act::Lose(place) => write_line(text, b"lose", &[*place as u64]),
        Act::Repeat(place) => write_line(text, b"repeat", &[*place as u64]),
        Act::Crash(node) => write_line(text, b"crash", &[node.0 as u64]),
        Act::CrashReport(node, crashed) => {
            write_line(text, b"report", &[node.0 as u64, crashed.0 as u64]);
        }
        Act::Shuffle(node) => write_line(text, b"shuffle", &[node.0 as u64]),
        Act::Broadcast(node) => write_line(text, b"broadcast", &[node.0 as u64]),
        Act::Timer(node, id) => {
            let numbers = [node.0 as u64, id.origin.0 as u64, id.seq as u64];
            write_line(text, b"timer", &numbers);
        }
        Act::Snapshot => write_line(text, b"snapshot", &[]),
    }
}

/// Appends a comment that says this, on one line.
#[tactic(auto, unfolding(crate::specs::WrittenLines::comment_line))]
fn write_comment(text: &mut Vec<u8>, said: &[u8])
    requires room { vec_len text.old + (length said.now + 3) ≤ vec_capacity text.old }
    ensures items { text.new.items ≡ text.old.items ++ ended (comment_line said.now) }
    ensures len { vec_len text.new ≡ vec_len text.old + (length said.now + 3) }
    ensures capacity { vec_capacity text.old ≤ vec_capacity text.new }
{
    append(text, b"# ");
    for byte in said {
        text.push_reserved(within_line(*byte));
    }
    text.push_reserved(b'\n');
}

/// A space for a line feed and for a carriage return, and the same byte for any other.
fn within_line(byte: u8) -> u8
    ensures { result ≡ spec.within_line byte }
{
    if byte == b'\n' || byte == b'\r' {
        b' '
    } else {
        byte
    }
}
