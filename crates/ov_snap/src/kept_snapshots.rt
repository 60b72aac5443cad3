ghost use Rattle.std.specs.Prelude.{◌≡◌, ◌<◌, IfOk, IfSome, IfNone, OnOk, vec_len, vec_capacity};
ghost use Rattle.ov_ids.specs.Members.{Has, Ordered};
ghost use Rattle.ov_snap.specs.Snapshots.{WasBefore};
ghost use Rattle.ov_snap.specs.declared.kept_snapshots.Snapshot.{Snapshot as Kept};

use ov_cert::SharedGraph;
use ov_ids::OutOfMemory;

/// A snapshot: the links that both ends held at a moment.
#[derive(Drop)]
pub struct Snapshot {
    /// The number of the journal entry of the snapshot.
    pub moment: u32,
    /// The links that both ends held then.
    pub graph: SharedGraph,
}

impl Snapshot {
    /// An equal snapshot, which shares the graph, or out of memory (99), as `SharedGraph::share`.
    pub(crate) fn copy(&self) -> Result<Snapshot, OutOfMemory>
        ensures { IfOk result (λ s. s ≡ self.now) }
    {
        Ok(Snapshot {
            moment: self.moment,
            graph: self.graph.share()?,
        })
    }
}

/// The snapshot of a moment, if there is one. It is found by binary search.
pub(crate) fn find(snapshots: &[Snapshot], moment: u32) -> Option<&Snapshot>
    requires { Ordered WasBefore snapshots.now }
    ensures some { IfSome result (λ s. Has snapshots.now s.now × (s.now.moment ≡ moment)) }
    ensures none { IfNone result ((s : Kept) → Has snapshots.now s → ¬ (s.moment ≡ moment)) }
{
    match snapshots.binary_search_by_key(&moment, |snapshot| snapshot.moment) {
        Ok(place) => Some(&snapshots[place]),
        Err(_) => None,
    }
}

/// Makes room for one more snapshot.
pub(crate) fn make_room(snapshots: &mut Vec<Snapshot>) -> Result<(), OutOfMemory>
    ensures items { snapshots.new.items ≡ snapshots.old.items }
    ensures room { OnOk result (vec_len snapshots.new < vec_capacity snapshots.new) }
{
    snapshots.reserve(1)?;
    Ok(())
}
