//! Files that are read token by token, as they are written, and with white space between their tokens.
use crate::certificates::files;
use ov_certfile::{Filed, Version, in_form, to_text_group};
use std::alloc::Global;

/// Two linked nodes, spread over lines.
const LINKED_SPREAD: &str = "
{ \"k\" : 1 ,\r\n\t\"links\": [ [1 , 2] ],
  \"moment\" :6, \"nodes\":[ 1,2 ] , \"verdict\": \"linked\",\n\"version\" :\t1 }
";

/// One node as a group, spread over lines.
const GROUP_SPREAD: &str = r#"{
  "group": [ 2 ],
  "k": 0,
  "links": [ [1, 3], [1, 4], [1, 5], [2, 3], [2, 4], [2, 5], [3, 4], [3, 5], [4, 5] ],
  "moment": 0,
  "nodes": [ 1, 2, 3, 4, 5 ],
  "verdict": "linked",
  "version": 2
}"#;

/// A pair and fans, spread over lines.
const FIVE_SPREAD: &str = r#"{ "cut": [3, 4, 5],
  "fans": [ { "j": 4, "paths": [ [4, 1], [4, 2], [4, 3] ] } , { "j" : 5, "paths": [[5 ,1],[5, 2 ],[ 5,3]] } ],
  "far": 2, "k": 3,
  "links": [[1,3],[1,4],[1,5],[2,3],[2,4],[2,5],[3,4],[3,5],[4,5]],
  "moment": 0, "near": 1, "nodes": [1, 2, 3, 4, 5],
  "pairs": [ { "i": 1, "j": 2, "paths": [ [1, 3, 2], [1, 4, 2], [1, 5, 2] ] } ],
  "side": [ 1 ], "verdict": "split", "version": 1 }
"#;

/// A pair and a fan of a group, spread over lines.
const RING_SPREAD: &str = r#"
{"cut":[2,5], "fans":[{"j":5, "paths":[[5,1], [5,4,3]]}], "far":3, "group":[1,3,5], "k":2,
 "links":[[1,2], [1,5], [2,3], [2,6], [3,4], [4,5]], "moment":0, "near":1, "nodes":[1,2,3,4,5,6],
 "pairs":[{"i":1, "j":3, "paths":[[1,2,3], [1,5,4,3]]}], "side":[1], "verdict":"split", "version":2}"#;

/// A text, and the file that is written of it.
static IN_FORM: [(&str, &str); 15] = [
    (files::TWO_LINKED, files::TWO_LINKED),
    (LINKED_SPREAD, files::TWO_LINKED),
    (files::FIVE_LINKED_GROUP, files::FIVE_LINKED_GROUP),
    (GROUP_SPREAD, files::FIVE_LINKED_GROUP),
    (files::TWO_UNLINKED, files::TWO_UNLINKED),
    (files::SQUARE, files::SQUARE),
    (files::SQUARE_GROUP, files::SQUARE_GROUP),
    (files::FIVE_BUT_ONE, files::FIVE_BUT_ONE),
    (FIVE_SPREAD, files::FIVE_BUT_ONE),
    (files::FIVE_GROUP, files::FIVE_GROUP),
    (files::TWO_TRIANGLES, files::TWO_TRIANGLES),
    (files::TRIANGLES_GROUP, files::TRIANGLES_GROUP),
    (files::PATH_GROUP, files::PATH_GROUP),
    (files::RING_GROUP, files::RING_GROUP),
    (RING_SPREAD, files::RING_GROUP),
];

/// Whether this file is written of what was read.
fn is_written(alloc: Global, filed: &Filed, file: &str) -> bool {
    if filed.moment > 65_536 {
        return false;
    }
    let group = filed.group.as_slice();
    match to_text_group(alloc, &filed.cert, &filed.graph, group, filed.moment) {
        Ok(text) => text.as_str() == file,
        Err(_) => false,
    }
}

/// Whether a text is read token by token, as what this file is written of.
fn is_found(alloc: Global, text: &str, file: &str) -> bool {
    match in_form(alloc, Version::Two, text) {
        Ok(Some(filed)) => is_written(alloc, &filed, file),
        _ => false,
    }
}

#[test]
fn written_files_are_read_by_their_tokens(rt: HostRuntime) {
    for (text, file) in &IN_FORM {
        assert!(rt; is_found(rt.alloc(), text, file), "at {text}");
    }
}
