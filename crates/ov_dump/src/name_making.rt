ghost use Rattle.std.specs.Prelude.{◌≡◌, IfOk};

use crate::{Listing, Name};
use ov_ids::OutOfMemory;
use std::alloc::Global;

/// A name of this text.
pub(crate) fn name_of(alloc: Global, text: &str) -> Result<Name, OutOfMemory>
    ensures { IfOk result (λ name. name ≡ text.now) }
{
    Ok(Name::new(String::from_str(alloc, text)?))
}

/// A listing of names of these texts.
pub(crate) fn listing_of(
    alloc: Global,
    at: u64,
    from: &str,
    to: &str,
) -> Result<Listing, OutOfMemory>
    ensures { IfOk result (λ l. l ≡ record { at = at; from = from.now; to = to.now }) }
{
    let from = name_of(alloc, from)?;
    let to = name_of(alloc, to)?;
    Ok(Listing { at, from, to })
}
