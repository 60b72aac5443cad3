ghost use Rattle.std.specs.Prelude.{◌≡◌, IfOk, OnOk, OnErr};
ghost use Rattle.std.specs.Option.{option_copied, option_map};
ghost use Rattle.std.specs.FinMap as map;
ghost use Rattle.ov_ids.specs.Sets.{without};
ghost use Rattle.ov_ids.specs.declared.id.MsgId.{MsgId};
ghost use Rattle.ov_plum.specs.Code.Codes.{id_code};
ghost use Rattle.ov_plum.specs.Ids.{id_cmp};

use crate::ihave_senders::Senders;
use indexmap::IndexMap;
use ov_ids::{MsgId, NodeId, OutOfMemory};
use std::alloc::Global;
use std::marker::Model;

/// A value that can be copied, unless the copy is out of memory.
pub(crate) trait TryCopy {
    /// An equal value.
    fn try_copy(&self) -> Result<Self, OutOfMemory>
        ensures { IfOk result (λ v. v ≡ self.now) };
}

/// Values by the ids of broadcasts. Contracts see the finite map.
#[derive(Drop)]
pub(crate) struct ById<V> {
    entries: IndexMap<MsgId, V>,
}

impl<V> Model for ById<V> {
    ghost Value = { map.FinMap id_cmp V };

    ghost coded = { map.code id_code V.code };

    ghost view = { λ a. map.from_entries a.entries.entries };
}

impl<V: Drop> ById<V> {
    /// No values. Nothing is allocated.
    pub(crate) fn new(alloc: Global) -> ById<V>
        ensures { result ≡ map.empty }
    {
        ById {
            entries: IndexMap::new(alloc),
        }
    }

    /// The allocator of its memory.
    pub(crate) fn allocator(&self) -> Global {
        *self.entries.allocator()
    }

    /// Whether there is a value at this id.
    pub(crate) fn contains(&self, id: &MsgId) -> bool
        ensures { result ≡ map.contains_key self.now id.now }
    {
        self.entries.contains_key(id)
    }

    /// The value at this id.
    pub(crate) fn get(&self, id: &MsgId) -> Option<&V>
        ensures { option_copied result ≡ map.get self.now id.now }
    {
        self.entries.get(id)
    }

    /// Puts a value at this id, in place of one that is there. Out of memory, nothing has changed.
    pub(crate) fn insert(&mut self, id: MsgId, value: V) -> Result<(), OutOfMemory>
        ensures ok { OnOk result (self.new ≡ map.insert self.old id value) }
        ensures err { OnErr result (self.new ≡ self.old) }
    {
        self.entries.insert(id, value)?;
        Ok(())
    }

    /// Takes the value at this id out, if there is one.
    pub(crate) fn remove(&mut self, id: &MsgId)
        ensures { self.new ≡ map.remove self.old id.now }
    {
        self.entries.swap_remove(id);
    }
}

impl<V: Drop + TryCopy> ById<V> {
    /// Equal values at the same ids.
    pub(crate) fn copy(&self) -> Result<ById<V>, OutOfMemory>
        ensures { IfOk result (λ m. m ≡ self.now) }
    {
        copy_of(&self.entries)
    }
}

/// A copy of each entry. It goes from the last one to the first, since among equal ids the first entry would count.
fn copy_of<V: Drop + TryCopy>(entries: &IndexMap<MsgId, V>) -> Result<ById<V>, OutOfMemory>
    ensures { IfOk result (λ m. m ≡ map.from_entries entries.now.entries) }
{
    let mut i = entries.len();
    let mut copy = ById {
        entries: IndexMap::with_capacity(*entries.allocator(), i)?,
    };
    while i > 0 {
        i -= 1;
        match entries.get_index(i) {
            Some((id, value)) => copy.insert(*id, value.try_copy()?)?,
            None => unreachable!(),
        }
    }
    Ok(copy)
}

impl ById<Senders> {
    /// Takes a sender out, at each id.
    pub(crate) fn forget(&mut self, sender: NodeId)
        ensures { (id : MsgId) → map.get self.new id ≡ option_map (without sender) (map.get self.old id) }
    {
        self.entries.retain(|_, senders| {
            senders.forget(sender);
            true
        });
    }
}
