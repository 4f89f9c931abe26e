//! A list with several owners, which contracts see as that list.
ghost use Rattle.std.specs.Prelude.{◌≡◌, ◌↔◌, [], length, IsTrue, IfOk};

use std::alloc::{AllocError, Global};
use std::marker::Model;
use std::sync::Arc;

/// A list that is shared, and not copied. Contracts see neither its owners nor its place in memory.
#[derive(Drop)]
pub struct SharedItems<T> {
    // Nothing stands for the empty list.
    items: Option<Arc<Vec<T>, Global>>,
}

impl<T> Model for SharedItems<T> {
    ghost use Rattle.std.specs.Prelude.{List};
    ghost use Rattle.reads.specs.Shared.{items_of};

    ghost Value = { List T };

    ghost view = { λ a. items_of a.items };
}

impl<T> SharedItems<T> {
    /// The empty list. It takes no memory.
    pub fn new() -> Self
        ensures { result ≡ [] }
    {
        SharedItems { items: None }
    }

    /// Its elements.
    pub fn as_slice(&self) -> &[T]
        ensures { result.now ≡ self.now }
    {
        match &self.items {
            Some(items) => items.as_slice(),
            None => &[],
        }
    }

    pub fn len(&self) -> usize
        ensures { result ≡ length self.now }
    {
        self.as_slice().len()
    }

    pub fn is_empty(&self) -> bool
        ensures { IsTrue result ↔ (self.now ≡ []) }
    {
        self.as_slice().is_empty()
    }
}

impl<T: Drop> SharedItems<T> {
    /// These elements. It takes memory for the owners' count, but for none of them.
    pub fn from_vec(alloc: Global, items: Vec<T>) -> Result<Self, AllocError>
        ensures { IfOk result (λ list. list ≡ items.items) }
    {
        if items.is_empty() {
            return Ok(SharedItems::new());
        }
        Ok(SharedItems {
            items: Some(Arc::new(alloc, items)?),
        })
    }

    /// The same list again, for one owner more. It takes no memory, and fails only where there are
    /// too many owners.
    pub fn copied(&self) -> Result<Self, AllocError>
        ensures { IfOk result (λ list. list ≡ self.now) }
    {
        match &self.items {
            Some(items) => Ok(SharedItems {
                items: Some(Arc::try_clone(items)?),
            }),
            None => Ok(SharedItems::new()),
        }
    }
}

impl<T: Copy> SharedItems<T> {
    /// Its elements, as a vector: copied where there is another owner.
    pub fn into_vec(self, alloc: Global) -> Result<Vec<T>, AllocError>
        ensures { IfOk result (λ items. items.items ≡ self) }
    {
        let Some(shared) = self.items else {
            return Ok(Vec::new(alloc));
        };
        match Arc::try_unwrap(shared) {
            Ok(items) => Ok(items),
            Err(shared) => Vec::from_slice(alloc, shared.as_slice()),
        }
    }
}
