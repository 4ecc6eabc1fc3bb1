//! Values in boxes.

ghost use Rattle.std.specs.Prelude.{◌≡◌, IfOk};

use crate::copies::Copied;
use crate::ids::OutOfMemory;
use std::alloc::Global;
use std::marker::Model;

/// A value in a box, which takes a word where it stands, however large the value is. Contracts see it as the value.
pub struct Boxed<T> {
    value: Box<T>,
}

impl<T> Model for Boxed<T> {
    ghost Value = { T };

    ghost view = { λ b. b.value.value };
}

impl<T: Drop> Boxed<T> {
    pub fn new(alloc: Global, value: T) -> Result<Boxed<T>, OutOfMemory>
        ensures { IfOk result (λ b. b ≡ value) }
    {
        let value = Box::new(alloc, value)?;
        Ok(Boxed { value })
    }

    pub fn value(&self) -> &T
        ensures { result.now ≡ self.now }
    {
        &self.value
    }
}

impl<T: Copied> Copied for Boxed<T> {
    fn copy(&self, alloc: Global) -> Result<Boxed<T>, OutOfMemory> {
        let value = self.value.copy(alloc)?;
        Boxed::new(alloc, value)
    }
}

impl<T: Drop> Drop for Boxed<T> {
    fn drop(self) {
        let Boxed { value: _ } = self;
    }
}
