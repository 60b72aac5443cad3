//! The lines of worked files, of their changes, and of bytes that are no file. More of them are examples.
use crate::certificates::files::{self, SQUARE, TWO_LINKED, TWO_LINKED_GROUP};
use crate::certificates::rows;
use crate::certificates::told::{has_line, has_row, is_judged};
use ov_cert::{check, check_frame, check_group};
use ov_certfile::{Filed, from_text};
use ov_check::{check_group_parallel, check_parallel};
use std::alloc::{AllocError, Global};
use std::thread::Threads;

/// Each file, and the rows of its changes. The later ones are of groups.
static TABLES: [(&str, &str); 12] = [
    (TWO_LINKED, rows::TWO_LINKED),
    (files::TWO_UNLINKED, rows::TWO_UNLINKED),
    (SQUARE, rows::SQUARE),
    (files::FIVE_BUT_ONE, rows::FIVE_BUT_ONE),
    (files::TWO_TRIANGLES, rows::TWO_TRIANGLES),
    (files::SQUARE_GROUP, rows::SQUARE_GROUP),
    (TWO_LINKED_GROUP, rows::TWO_LINKED_GROUP),
    (files::FIVE_LINKED_GROUP, rows::FIVE_LINKED_GROUP),
    (files::FIVE_GROUP, rows::FIVE_GROUP),
    (files::RING_GROUP, rows::RING_GROUP),
    (files::PATH_GROUP, rows::PATH_GROUP),
    (files::TRIANGLES_GROUP, rows::TRIANGLES_GROUP),
];

#[test]
fn files_have_their_lines(rt: HostRuntime) {
    for (file, rows) in &TABLES {
        for row in rows.lines().skip(1) {
            assert!(rt; has_row(&rt, file, row), "at {row}");
        }
    }
}

/// Each call that judges a certificate accepts the one that was read.
fn is_accepted(rt: &(impl AllocGlobal + Threads + Sync), filed: &Filed) -> bool {
    let group = filed.group.as_slice();
    check(&filed.graph, &filed.cert).is_ok()
        && check_frame(&filed.graph, &filed.cert).is_ok()
        && check_parallel(rt, &filed.graph, &filed.cert).is_ok()
        && check_group(&filed.graph, group, &filed.cert).is_ok()
        && check_group_parallel(rt, &filed.graph, group, &filed.cert).is_ok()
}

#[test]
fn each_call_accepts_the_square(rt: HostRuntime) {
    let is_accepted = match from_text(rt.alloc(), SQUARE) {
        Ok(filed) => is_accepted(&rt, &filed),
        Err(_) => false,
    };
    assert!(rt; is_accepted);
}

/// Bytes that are no certificate file, and the line of each.
static HOSTILE: [(&[u8], &str); 4] = [
    (&[b'['; 200], "refused 60"),
    (b"\xff", "refused 60"),
    (b"[]", "refused 63"),
    (b"{}", "refused 61"),
];

#[test]
fn hostile_bytes(rt: HostRuntime) {
    for length in 0..SQUARE.len() {
        let bytes = &SQUARE.as_bytes()[..length];
        assert!(rt;
            is_judged(rt.alloc(), bytes, "refused 60"),
            "{length} bytes"
        );
    }
    for (bytes, line) in &HOSTILE {
        assert!(rt; is_judged(rt.alloc(), bytes, line), "at {line}");
    }
}

/// These bytes, with one between them that no UTF-8 has.
fn with_byte(alloc: Global, before: &[u8], behind: &[u8]) -> Result<Vec<u8>, AllocError> {
    let mut bytes = Vec::from_slice(alloc, before)?;
    bytes.push(0xff)?;
    bytes.extend_from_slice(behind)?;
    Ok(bytes)
}

/// One thread and many say that these bytes, with one between them that no UTF-8 has, are no JSON.
fn are_no_json(rt: &(impl AllocGlobal + Threads + Sync), before: &[u8], behind: &[u8]) -> bool {
    match with_byte(rt.alloc(), before, behind) {
        Ok(bytes) => has_line(rt, &bytes, "refused 60"),
        Err(_) => false,
    }
}

#[test]
fn a_byte_that_belongs_to_no_text_is_no_json(rt: HostRuntime) {
    let square = SQUARE.as_bytes();
    for place in 0..square.len() {
        assert!(rt;
            are_no_json(&rt, &square[..place], &square[place + 1..]),
            "at {place}"
        );
    }
    assert!(rt; are_no_json(&rt, &[], square) && are_no_json(&rt, square, &[]));
}
