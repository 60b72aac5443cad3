//! Pictures for which an allocation is refused. `dev/refuse-allocations` refuses each in turn.
use crate::picture::square::drawn_square;
use ov_drawing::{ChosenEntry, Drawing, PictureFault};
use ov_ids::{NodeId, OutOfMemory};
use ov_picture::{dot, svg};
use std::alloc::Global;

/// Whether a drawing is written whole, as SVG.
fn is_picture(alloc: Global, drawing: &Drawing) -> Result<bool, OutOfMemory> {
    Ok(svg(alloc, drawing, &[])?.as_str().ends_with("</svg>\n"))
}

/// Whether a drawing is written whole, in DOT.
fn is_text(alloc: Global, drawing: &Drawing) -> Result<bool, OutOfMemory> {
    Ok(dot(alloc, drawing, &[])?.as_str().ends_with("}\n"))
}

/// Whether a drawing is written whole in both forms.
fn is_written(alloc: Global, drawing: &Drawing) -> Result<bool, PictureFault> {
    match (is_picture(alloc, drawing), is_text(alloc, drawing)) {
        (Ok(is_picture), Ok(is_text)) => Ok(is_picture && is_text),
        _ => Err(PictureFault::OutOfMemory),
    }
}

/// Whether the square with the paths of a fan is written whole.
fn are_whole(alloc: Global) -> Result<bool, PictureFault> {
    match drawn_square(alloc, Some(ChosenEntry::Fan { j: NodeId(4) })) {
        Ok(drawing) => is_written(alloc, &drawing),
        Err(fault) => Err(fault),
    }
}

/// If an allocation is refused, there is no picture. The same calls, made again, make it.
#[test]
fn out_of_memory_makes_no_picture(rt: HostRuntime) {
    let first = are_whole(rt.alloc());
    if first == Ok(true) {
        return;
    }
    assert!(rt; first == Err(PictureFault::OutOfMemory));
    assert!(rt; are_whole(rt.alloc()) == Ok(true));
    let _ = println!(rt; "seen: pictures of a square: refused 99, then whole");
}
