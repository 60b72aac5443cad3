ghost use Rattle.std.specs.Prelude.{◌≡◌, IfOk, option_map};
ghost use Rattle.ov_graph.specs.Links.{HasNode};
ghost use Rattle.ov_sweep.specs.Rows.{IsShapeOf};

use ov_articulations::articulation_points;
use ov_graph::Graph;
use ov_ids::OutOfMemory;
use ov_shape::shape_of;
use ov_sweep_rows::{FourDecimals, PhaseShape};
use std::alloc::Global;

/// The shape of a graph, which must have a node. OutOfMemory (99) is returned if a number is past 32 bits, or if an
/// allocation is refused.
pub(crate) fn phase_shape(alloc: Global, graph: &Graph) -> Result<PhaseShape, OutOfMemory>
    requires some { HasNode graph.now }
    ensures { IfOk result (IsShapeOf graph.now) }
{
    let measured = shape_of(alloc, graph)?;
    let Some(shape) = measured else {
        return Err(OutOfMemory);
    };
    Ok(PhaseShape {
        largest: as_number(shape.largest)?,
        clustering: as_decimals(shape.clustering),
        path: as_decimals_if(shape.path),
        diameter: as_number(shape.diameter)?,
        degree_25: as_number(shape.degree_25)?,
        degree_50: as_number(shape.degree_50)?,
        degree_75: as_number(shape.degree_75)?,
        articulations: as_number(articulation_points(alloc, graph)?)?,
    })
}

/// A number in 32 bits, or OutOfMemory (99) if it is past them.
fn as_number(number: usize) -> Result<u32, OutOfMemory>
    ensures { IfOk result (λ n. n ≡ number) }
{
    if number > u32::MAX as usize {
        return Err(OutOfMemory);
    }
    Ok(number as u32)
}

/// The mean of a path, if there is one.
fn as_decimals_if(parts: Option<usize>) -> Option<FourDecimals>
    ensures { option_map (λ p. p.parts) result ≡ parts }
{
    match parts {
        Some(parts) => Some(as_decimals(parts)),
        None => None,
    }
}

/// So many parts of 10,000.
fn as_decimals(parts: usize) -> FourDecimals
    ensures { result.parts ≡ parts }
{
    FourDecimals {
        parts: parts as u64,
    }
}
