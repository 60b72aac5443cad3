ghost use Rattle.std.specs.Prelude.{◌≡◌, take};
ghost use Rattle.ov_ids.specs.Members.{Ascends};
ghost use Rattle.ov_graph.specs.Even.{later_members};
ghost use Rattle.ov_cert.specs.Code.Tests.{is_earlier};

use ov_graph::is_member;
use ov_ids::NodeId;

/// Whether `id` is a member below `j`.
pub(crate) fn is_earlier(group: &[NodeId], j: NodeId, id: NodeId) -> bool
    requires { Ascends group.now }
    ensures { result ≡ is_earlier group.now j id }
{
    id < j && is_member(group, id)
}

/// The first k members, or all members if there are fewer.
pub(crate) fn first_members(group: &[NodeId], k: usize) -> &[NodeId]
    ensures { result.now ≡ take k group.now }
{
    &group[..k.min(group.len())]
}

/// The members after the first k. For k = 0 there are none.
pub(crate) fn later_members(group: &[NodeId], k: usize) -> &[NodeId]
    ensures { result.now ≡ later_members group.now k }
{
    if k == 0 {
        return &[];
    }
    &group[k.min(group.len())..]
}
