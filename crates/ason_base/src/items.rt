//! Lists without a condition.

ghost use Rattle.std.specs.Prelude.{◌≡◌, [], ◌∷◌, ◌++◌, IfOk, OnErr, OnOk, drop};

use crate::copies::Copied;
use crate::ids::OutOfMemory;
use std::alloc::Global;
use std::marker::Model;

/// A list.
pub struct Items<T> {
    items: Vec<T>,
}

impl<T> Model for Items<T> {
    ghost use Rattle.std.specs.Prelude.{List};

    ghost Value = { List T };

    ghost view = { λ s. s.items.items };
}

impl<T: Drop> Items<T> {
    /// No item.
    pub fn new(alloc: Global) -> Items<T>
        ensures { result ≡ [] }
    {
        Items {
            items: Vec::new(alloc),
        }
    }

    /// Adds an item at the end.
    pub fn push(&mut self, item: T) -> Result<(), OutOfMemory>
        ensures ok { OnOk result (self.new ≡ self.old ++ item ∷ []) }
        ensures err { OnErr result (self.new ≡ self.old) }
    {
        self.items.push(item)?;
        Ok(())
    }

    pub fn items(&self) -> &[T]
        ensures { result.now ≡ self.now }
    {
        &self.items
    }

    /// These items.
    pub fn from_vec(items: Vec<T>) -> Items<T>
        ensures { result ≡ items.items }
    {
        Items { items }
    }

    /// The items, as a vector.
    pub fn into_vec(self) -> Vec<T>
        ensures { result.items ≡ self }
    {
        let Items { items } = self;
        items
    }
}

impl<T: Copy + Drop> Items<T> {
    /// The items from place k on, from 0.
    pub fn copy_from(&self, alloc: Global, k: usize) -> Result<Items<T>, OutOfMemory>
        ensures { IfOk result (λ r. r ≡ drop k self.now) }
    {
        let left = self.items.get(k..).unwrap_or(&[]);
        let items = Vec::from_slice(alloc, left)?;
        Ok(Items { items })
    }
}

impl<T: Copy + Drop> Copied for Items<T> {
    fn copy(&self, alloc: Global) -> Result<Items<T>, OutOfMemory> {
        let items = Vec::from_slice(alloc, &self.items)?;
        Ok(Items { items })
    }
}

impl<T: Drop> Drop for Items<T> {
    fn drop(self) {
        let Items { items: _ } = self;
    }
}
