//! What can be copied, with memory that may be wanting.

ghost use Rattle.std.specs.Prelude.{◌≡◌, IfOk};

use crate::ids::OutOfMemory;
use std::alloc::Global;

/// What can be copied.
pub trait Copied: Drop + Sized {
    /// The same value again.
    fn copy(&self, alloc: Global) -> Result<Self, OutOfMemory>
        ensures { IfOk result (λ r. r ≡ self.now) };
}

/// The value again: its first fields as they are, copies of those after a semicolon, and behind one more the lists that
/// hold copies of their items.
#[macro_export]
macro_rules! copied {
    ($of:expr, $alloc:expr; $name:ident { $($same:ident),*; $($own:ident),* $(; $($list:ident),*)? }) => {{
        $(let $own = $of.$own.copy($alloc)?;)*
        $($(let $list = $crate::copy_all($alloc, &$of.$list)?;)*)?
        Ok($name { $($same: $of.$same,)* $($own,)* $($($list,)*)? })
    }};
}

/// The same items again.
pub fn copy_all<T: Copied>(alloc: Global, items: &[T]) -> Result<Vec<T>, OutOfMemory>
    ensures { IfOk result (λ copies. copies.items ≡ items.now) }
{
    let mut copies = Vec::with_capacity(alloc, items.len())?;
    for item in items {
        copies.push(item.copy(alloc)?)?;
    }
    Ok(copies)
}

impl<T: Copied> Copied for Option<T> {
    fn copy(&self, alloc: Global) -> Result<Option<T>, OutOfMemory> {
        match self {
            None => Ok(None),
            Some(value) => Ok(Some(value.copy(alloc)?)),
        }
    }
}
