ghost use Rattle.std.specs.Prelude.{◌≡◌, ◌↔◌, IsTrue, None};
ghost use Rattle.ov_ids.specs.Members.{Ascends};
ghost use Rattle.ov_ids.specs.Ascending.{ascends_after};

use crate::NodeId;

/// Whether each id is below all later ones, so that the list is a set in ascending order.
pub fn is_ascending(ids: &[NodeId]) -> bool
    ensures set { IsTrue result ↔ Ascends ids.now }
    ensures test { result ≡ ascends_after None ids.now }
{
    rises(ids)
}

/// The same, by its test alone.
fn rises(ids: &[NodeId]) -> bool
    ensures { result ≡ ascends_after None ids.now }
{
    let mut before = None;
    for id in ids {
        if let Some(last) = before
            && *id <= last
        {
            return false;
        }
        before = Some(*id);
    }
    true
}
