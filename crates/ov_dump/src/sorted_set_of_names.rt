ghost use Rattle.std.specs.Prelude.{◌≡◌, ◌↔◌, ◌⊎◌, ◌+◌, List, ℕ, [], length, IfOk, IsTrue, OnErr, OnOk};
ghost use Rattle.ov_ids.specs.Members.{Has, Ordered};
ghost use Rattle.ov_dump.specs.Names.{ComesBefore};

use crate::name::Name;
use ov_ids::OutOfMemory;
use std::alloc::Global;
use std::collections::HashSet;
use std::marker::Model;

/// A set of names. Contracts see its members in ascending order, byte by byte.
#[derive(Drop)]
pub(crate) struct NameSet {
    names: HashSet<Name>,
}

impl Model for NameSet {
    ghost use Rattle.std.specs.Prelude.{List, ℕ};
    ghost use Rattle.ov_dump.specs.Code.InOrder.{in_order};

    ghost Value = { List (List ℕ) };

    ghost view = { λ s. in_order s.names.keys };
}

impl NameSet {
    /// The empty set. Nothing is allocated.
    pub(crate) fn new(alloc: Global) -> NameSet
        ensures { result ≡ [] }
    {
        NameSet {
            names: HashSet::new(alloc),
        }
    }

    /// The number of members.
    pub(crate) fn len(&self) -> usize
        ensures value { result ≡ length self.now }
        ensures ordered { Ordered ComesBefore self.now }
    {
        self.names.len()
    }

    /// Whether the name is a member.
    pub(crate) fn contains(&self, name: &Name) -> bool
        ensures { IsTrue result ↔ Has self.now name.now }
    {
        self.names.contains(name)
    }

    /// Inserts a name that is no member. OutOfMemory (99) leaves the set as it was.
    pub(crate) fn insert(&mut self, name: Name) -> Result<(), OutOfMemory>
        requires stranger { ¬ Has self.old name }
        ensures members { OnOk result ((n : List ℕ) → Has self.new n ↔ ((name ≡ n) ⊎ Has self.old n)) }
        ensures len { OnOk result (length self.new ≡ length self.old + 1) }
        ensures err { OnErr result (self.new ≡ self.old) }
    {
        self.names.insert(name)?;
        Ok(())
    }

    /// The members, ascending.
    pub(crate) fn into_names(self, alloc: Global) -> Result<Vec<Name>, OutOfMemory>
        ensures names { IfOk result (λ v. v.items ≡ self) }
        ensures ordered { IfOk result (λ v. Ordered ComesBefore v.items) }
    {
        let mut names: Vec<Name> = self.names.into_iter().collect(alloc)?;
        names.sort_unstable();
        Ok(names)
    }
}
