use ov_ids::{IdsText, NodeId};
use std::alloc::AllocError;

/// Appends a name and then the ids, with commas between them, or a dash where there are none.
pub fn put_ids(told: &mut String, name: &str, ids: &[NodeId]) -> Result<(), AllocError> {
    let ids = IdsText(ids);
    write!(told, "{name}{ids}")
}

/// Appends each byte by two hex digits.
pub fn put_hex(told: &mut String, bytes: &[u8]) -> Result<(), AllocError> {
    for byte in bytes {
        write!(told, "{byte:02x}")?;
    }
    Ok(())
}
