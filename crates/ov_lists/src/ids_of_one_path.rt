ghost use Rattle.std.specs.Prelude.{◌≡◌, ◌<◌, ◌≤◌, length};
ghost use Rattle.std.specs.List.{slice_range};
ghost use Rattle.ov_lists.specs.Code.Cut.{start_at};

use crate::path_ends::Ends;
use ov_ids::NodeId;

/// The ids from the place `start` to before the place `end`.
pub(crate) fn id_range(ids: &[NodeId], start: usize, end: usize) -> &[NodeId]
    requires start { start ≤ end }
    requires end { end ≤ length ids.now }
    ensures { result.now ≡ slice_range ids.now start end }
{
    &ids[start..end]
}

/// How many ids there are before the path at a place.
pub(crate) fn start_of(ends: &Ends, place: usize) -> usize
    requires { place < length ends.now }
    ensures { result ≡ start_at 0 ends.now place }
{
    if place == 0 { 0 } else { ends.get(place - 1) }
}
