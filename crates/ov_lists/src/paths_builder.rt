ghost use Rattle.std.specs.Prelude.{◌≡◌, [], ◌∷◌, ◌++◌, IfOk, OnOk, OnErr};
ghost use Rattle.ov_lists.specs.Building.{Building};

use crate::path_ends::Ends;
use crate::path_list::Paths;
use ov_ids::{NodeId, OutOfMemory};
use std::alloc::Global;
use std::marker::Model;

/// Builds a list of paths id by id. Contracts see the paths so far, and the ids of the one that is begun.
#[derive(Drop)]
pub struct PathsBuilder {
    ids: Vec<NodeId>,
    ends: Ends,
    /// How many ids there are up to the end of the last path.
    last_end: usize,
}

impl Model for PathsBuilder {
    ghost use Rattle.std.specs.Prelude.{◌≤◌, drop, length};
    ghost use Rattle.ov_lists.specs.Building.{Building};
    ghost use Rattle.ov_lists.specs.Code.Cut.{paths_from, AreEnds};

    ghost Value = { Building };

    ghost view = { λ b. record {
      paths = paths_from 0 b.ends b.ids.items;
      begun = drop b.last_end b.ids.items;
    } };

    ghost invariant = { λ b. AreEnds 0 b.ends b.last_end × (b.last_end ≤ length b.ids.items) };
}

impl PathsBuilder {
    /// No paths, and none begun. The room for this many paths, with this many ids in all, is allocated before.
    /// OutOfMemory (99) if an allocation is refused.
    pub fn with_capacity(
        alloc: Global,
        paths: usize,
        ids: usize,
    ) -> Result<PathsBuilder, OutOfMemory>
        ensures { IfOk result (λ b. b ≡ record { paths = []; begun = [] }) }
    {
        Ok(PathsBuilder {
            ids: Vec::with_capacity(alloc, ids)?,
            ends: Ends::with_capacity(alloc, paths)?,
            last_end: 0,
        })
    }

    /// Appends an id to the path that is begun. OutOfMemory (99) if an allocation is refused; nothing has changed then.
    pub fn push_id(&mut self, id: NodeId) -> Result<(), OutOfMemory>
        ensures pushed { OnOk result (self.new ≡ record self.old { begun = self.old.begun ++ id ∷ [] }) }
        ensures unchanged { OnErr result (self.new ≡ self.old) }
    {
        self.ids.push(id)?;
        Ok(())
    }

    /// Ends the path that is begun. The next one is empty at first. OutOfMemory (99) if an allocation is refused;
    /// nothing has changed then.
    pub fn end_path(&mut self) -> Result<(), OutOfMemory>
        ensures ended { OnOk result (self.new
            ≡ record { paths = self.old.paths ++ self.old.begun ∷ []; begun = [] }) }
        ensures unchanged { OnErr result (self.new ≡ self.old) }
    {
        let end = self.ids.len();
        self.ends.push(end)?;
        self.last_end = end;
        Ok(())
    }

    /// The paths. None may be begun. Nothing is allocated.
    pub fn finish(self) -> Paths
        requires { self.begun ≡ [] }
        ensures { result ≡ self.paths }
    {
        Paths::of_parts(self.ids, self.ends)
    }
}
