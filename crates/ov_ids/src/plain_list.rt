use crate::OutOfMemory;
use std::alloc::Global;
use std::marker::Model;

/// A list. Contracts see its items in order and nothing else, so lists of the same items are equal. Of a `Vec` they
/// would see the capacity too.
#[derive(Debug, Drop)]
pub struct Seq<T>(Vec<T>);

impl<T> Model for Seq<T> {
    ghost use Rattle.std.specs.Prelude.{List};

    ghost Value = { List T };

    ghost view = { λ a. a.0.items };
}

impl<T> Seq<T> {
    ghost use Rattle.std.specs.Prelude.{◌≡◌};

    /// The list of these items. Nothing is allocated.
    pub fn new(items: Vec<T>) -> Seq<T>
        ensures { result ≡ items.items }
    {
        Seq(items)
    }

    /// The items in order.
    pub fn as_slice(&self) -> &[T]
        ensures { result.now ≡ self.now }
    {
        &self.0
    }

    /// The items as a `Vec`. Nothing is allocated.
    pub fn into_vec(self) -> Vec<T>
        ensures { result.items ≡ self }
    {
        self.0
    }
}

impl<T: Copy> Seq<T> {
    ghost use Rattle.std.specs.Prelude.{◌≡◌, IfOk};

    /// An equal list. OutOfMemory (99) if the allocation is refused.
    pub fn copy(&self, alloc: Global) -> Result<Seq<T>, OutOfMemory>
        ensures { IfOk result (λ list. list ≡ self.now) }
    {
        Ok(Seq(Vec::from_slice(alloc, self.as_slice())?))
    }
}
