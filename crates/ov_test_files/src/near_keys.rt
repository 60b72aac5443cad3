//! What a person is told of certificate files that are almost right. More of it is an example (`tables` of `examples`).
use ov_certfile::Version;
use ov_check::{Outcome, outcome_of};
use ov_check_reasons::reasons;
use std::alloc::Global;

/// Files in which a key is missing or unknown, or an end of a link is no node, and what is told of them. A key is
/// offered if it differs in one place, by two bytes at most and by no more than it has in common.
static KEYS: [(&str, &str); 14] = [
    (
        r#"{"k":1,"links":[[1,2]],"momentum":6,"nodes":[1,2],"verdict":"linked","version":1}"#,
        r#"a key is missing: "moment"; is it written "momentum"?"#,
    ),
    // three bytes more
    (
        r#"{"k":1,"links":[[1,2]],"momentous":6,"nodes":[1,2],"verdict":"linked","version":1}"#,
        r#"a key is missing: "moment""#,
    ),
    (
        r#"{"kk":1,"links":[[1,2]],"moment":6,"nodes":[1,2],"verdict":"linked","version":1}"#,
        r#"a key is missing: "k"; is it written "kk"?"#,
    ),
    // nothing in common
    (
        r#"{"q":1,"links":[[1,2]],"moment":6,"nodes":[1,2],"verdict":"linked","version":1}"#,
        r#"a key is missing: "k""#,
    ),
    (
        r#"{"k":1,"links":[[1,2]],"moment":6,"momentum":6,"nodes":[1,2],"verdict":"linked","version":1}"#,
        r#"a key is unknown: "momentum"; did you mean "moment"?"#,
    ),
    (
        r#"{"k":1,"links":[[1,2]],"moment":6,"momentous":6,"nodes":[1,2],"verdict":"linked","version":1}"#,
        r#"a key is unknown: "momentous""#,
    ),
    (
        r#"{"k":1,"kk":1,"links":[[1,2]],"moment":6,"nodes":[1,2],"verdict":"linked","version":1}"#,
        r#"a key is unknown: "kk"; did you mean "k"?"#,
    ),
    (
        r#"{"k":1,"links":[[1,2]],"moment":6,"nodes":[1,2],"q":1,"verdict":"linked","version":1}"#,
        r#"a key is unknown: "q""#,
    ),
    // of two unknown keys the first is named, in the order of their bytes
    (
        r#"{"zone":1,"extra":2,"k":1,"links":[[1,2]],"moment":6,"nodes":[1,2],"verdict":"linked","version":1}"#,
        r#"a key is unknown: "extra""#,
    ),
    // `fans` and `near` are almost `far`, but are keys themselves, and so is `far`
    (
        r#"{"cut":[],"fans":[],"k":0,"links":[],"moment":4,"near":2,"nodes":[1,2],"pairs":[],"side":[2],"verdict":"split","version":1}"#,
        r#"a key is missing: "far""#,
    ),
    (
        r#"{"cut":[],"far":1,"k":0,"links":[],"moment":4,"near":2,"nodes":[1,2],"pairs":[],"side":[2],"verdict":"split","version":1}"#,
        r#"a key is missing: "fans""#,
    ),
    (
        r#"{"cut":[],"fans":[],"far":1,"k":0,"links":[],"moment":4,"nodes":[1,2],"pairs":[],"side":[2],"verdict":"split","version":1}"#,
        r#"a key is missing: "near""#,
    ),
    // links of which the lower end is no node, and of which neither is
    (
        r#"{"k":1,"links":[[0,2]],"moment":6,"nodes":[1,2],"verdict":"linked","version":1}"#,
        "a link does not join a node to a higher one: links[0] is [0,2], and 0 is no node",
    ),
    (
        r#"{"k":1,"links":[[1,2],[3,9]],"moment":6,"nodes":[1,2],"verdict":"linked","version":1}"#,
        "a link does not join a node to a higher one: links[1] is [3,9], and 3 is no node",
    ),
];

/// Files with a value that has another form, and what is told of its path.
static PATHS: [(&str, &str); 3] = [
    (
        r#"{"k":1,"links":[[1,2],[1,-2]],"moment":6,"nodes":[1,2],"verdict":"linked","version":1}"#,
        "a value has another form, links[1][1]: expected an id, found -2",
    ),
    (
        r#"{"k":1,"links":[[1,2]],"moment":6,"nodes":[1,true,null],"verdict":"linked","version":1}"#,
        "a value has another form, nodes[1]: expected an id, found true",
    ),
    (
        r#"{"k":1,"links":[[1,2,3]],"moment":6,"nodes":[1,2],"verdict":"linked","version":1}"#,
        "a value has another form, links[0]: expected two ids, found 3",
    ),
];

/// Whether of what came of a file a person is told this.
fn is_reason(alloc: Global, outcome: &Outcome, told: &str) -> bool {
    match reasons(alloc, outcome) {
        Ok(text) => text.as_str() == told,
        Err(_) => false,
    }
}

/// Whether of a file a person is told this.
fn is_told(alloc: Global, file: &str, told: &str) -> bool {
    match outcome_of(alloc, Version::Two, file.as_bytes()) {
        Ok(outcome) => is_reason(alloc, &outcome, told),
        Err(_) => false,
    }
}

#[test]
fn what_is_almost_right_is_named(rt: HostRuntime) {
    for (file, told) in &KEYS {
        assert!(rt; is_told(rt.alloc(), file, told), "{told}");
    }
}

#[test]
fn a_value_is_named_by_its_path(rt: HostRuntime) {
    for (file, told) in &PATHS {
        assert!(rt; is_told(rt.alloc(), file, told), "{told}");
    }
}
