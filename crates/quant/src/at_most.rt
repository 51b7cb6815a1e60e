//! Lists with a limit that take as much memory as what they hold.
ghost use Rattle.std.specs.Prelude.{◌≡◌, ◌<◌, ◌≤◌, ◌==◌, [], ◌∷◌, ◌++◌, length, IfOk, IfErr};

use std::alloc::{AllocError, Global};
use std::marker::Model;

/// At most `MOST` items, in their order. A row may hold a whole list of each kind and mostly holds
/// few, so that it has them by what they are, and not by what there may be.
#[derive(Drop)]
pub struct AtMost<T, const MOST: usize> {
    items: Vec<T>,
}

impl<T, const MOST: usize> Model for AtMost<T, MOST> {
    ghost use Rattle.std.specs.Prelude.{◌≤◌, List, length};
    ghost use Rattle.std.specs.Coded.{coded_list};

    ghost Value = { List T };

    ghost coded = { coded_list T.code };

    ghost view = { λ few. few.items.items };

    ghost invariant = { λ few. length few.items.items ≤ MOST };
}

impl<T: Drop, const MOST: usize> AtMost<T, MOST> {
    /// No items, which takes no memory.
    pub fn new(alloc: Global) -> Self
        ensures { result ≡ [] }
    {
        AtMost {
            items: Vec::new(alloc),
        }
    }

    /// Whether there is no item.
    pub fn is_empty(&self) -> bool
        ensures { result ≡ (length self.now == 0) }
    {
        self.items.is_empty()
    }

    /// The items.
    pub fn as_slice(&self) -> &[T]
        ensures value { result.now ≡ self.now }
        ensures fits { length result.now ≤ MOST }
    {
        self.items.as_slice()
    }

    /// Takes the memory for so many more items and no more, so that they can be put one by one.
    ///
    /// Errors: where no memory is left.
    pub fn reserve(&mut self, more: usize) -> Result<(), AllocError>
        ensures { self.new ≡ self.old }
    {
        self.items.reserve_exact(more)
    }

    /// Puts an item behind the others.
    ///
    /// Errors: where no memory is left; the item is gone then, and the others stay.
    pub fn push(&mut self, item: T) -> Result<(), AllocError>
        requires { length self.old < MOST }
        ensures put { IfOk result (λ _. self.new ≡ self.old ++ item ∷ []) }
        ensures kept { IfErr result (λ _. self.new ≡ self.old) }
    {
        self.items.push(item)?;
        Ok(())
    }
}
