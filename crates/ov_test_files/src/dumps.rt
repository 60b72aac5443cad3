//! Files in DOT that are nested deep, and why a dump gives no graph. What is made of dumps is an example (`tables` of
//! `examples`).
use ov_dot::read_dot;
use ov_dump::{Choice, Dump, named_graph, read_views};
use ov_graph::SizeLimit;
use std::alloc::{AllocError, Global};

/// Appends a text many times.
fn repeat(text: &mut String, part: &str) -> Result<(), AllocError> {
    for _ in 0..100_000 {
        text.push_str(part)?;
    }
    Ok(())
}

/// Appends a graph of one node, within many braces, with an attribute within many brackets.
fn put_deep(text: &mut String) -> Result<(), AllocError> {
    text.push_str("graph {")?;
    repeat(text, "{")?;
    text.push_str("a [x=<")?;
    repeat(text, "<")?;
    repeat(text, ">")?;
    text.push_str(">]")?;
    repeat(text, "}")?;
    text.push('}')
}

/// Whether a dump has the node a alone, in the first line.
fn is_a_alone(dump: &Dump) -> bool {
    let entries = dump.entries.as_slice();
    let Some(entry) = entries.first() else {
        return false;
    };
    entries.len() == 1
        && entry.at == 1
        && entry.name.as_str() == "a"
        && dump.listings.as_slice().is_empty()
}

/// Whether a file has the node a alone.
fn has_a_alone(alloc: Global, text: &str) -> bool {
    match read_dot(alloc, text.as_bytes()) {
        Ok(dump) => is_a_alone(&dump),
        Err(_) => false,
    }
}

/// Many braces and brackets that are open at once need no stack.
#[test]
fn deep_nesting(rt: HostRuntime) {
    let mut text = String::new(rt.alloc());
    let is_written = put_deep(&mut text).is_ok();
    assert!(rt; is_written && has_a_alone(rt.alloc(), text.as_str()));
}

/// Any name is a node, and links are listed by both ends.
const ALL: Choice = Choice {
    either: false,
    entries_only: false,
    limit: SizeLimit::Usual,
};

/// Views, and why they give no graph. A program tells the line or the entry in other words.
static NO_GRAPH: [(&str, &str); 2] = [
    (
        "{\"a\": [], \"b\": [], \"a\": [\"b\"]}",
        "place 3: a has an entry already",
    ),
    ("{\"a\": [\"\"]}", "place 1: a name is empty"),
];

/// Whether a dump gives no graph, for this reason.
fn is_refused(alloc: Global, dump: &Dump, told: &str) -> bool {
    match named_graph(alloc, dump, ALL) {
        Ok(_) => false,
        Err(fault) => match fault.to_string(alloc) {
            Ok(text) => text.as_str() == told,
            Err(_) => false,
        },
    }
}

/// Whether views give no graph, for this reason.
fn give_no_graph(alloc: Global, views: &str, told: &str) -> bool {
    match read_views(alloc, views.as_bytes()) {
        Ok(dump) => is_refused(alloc, &dump, told),
        Err(_) => false,
    }
}

#[test]
fn refusals_have_their_words(rt: HostRuntime) {
    for (views, told) in &NO_GRAPH {
        assert!(rt; give_no_graph(rt.alloc(), views, told), "{told}");
    }
}
