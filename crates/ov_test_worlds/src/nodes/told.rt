//! What the tests of trees and of whole nodes share.
use ov_ids::NodeId;
use ov_test_kit::{bytes_of, put_hex};
use ov_wire::{Message, WireFault};
use std::alloc::Global;

fn put_bytes(alloc: Global, told: &mut String, message: &Message) -> Result<(), WireFault> {
    let bytes = bytes_of(alloc, message)?;
    Ok(put_hex(told, bytes.as_slice())?)
}

/// Appends each message, by its receiver and its bytes, after this mark.
pub fn put_sends(
    alloc: Global,
    told: &mut String,
    mark: &str,
    sends: &[(NodeId, Message)],
) -> Result<(), WireFault> {
    for (to, message) in sends {
        let number = to.number();
        write!(told, "{mark}to{number}:")?;
        put_bytes(alloc, told, message)?;
    }
    Ok(())
}

/// The text is the expected one without its spaces.
pub fn is_spelt_as(told: &str, expected: &str) -> bool {
    let mut left = told.as_bytes();
    for part in expected.split(' ') {
        let Some(rest) = left.strip_prefix(part.as_bytes()) else {
            return false;
        };
        left = rest;
    }
    left.is_empty()
}

/// The message's bytes are this head and then these.
pub fn is_whole(
    alloc: Global,
    message: &Message,
    head: &[u8],
    payload: &[u8],
) -> Result<bool, WireFault> {
    let bytes = bytes_of(alloc, message)?;
    Ok(
        bytes.len() == head.len() + payload.len()
            && bytes.starts_with(head)
            && bytes.ends_with(payload),
    )
}
