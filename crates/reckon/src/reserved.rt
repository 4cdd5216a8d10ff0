// Lists whose memory is reserved when they are made.
ghost use Rattle.std.specs.Prelude.{◌≡◌, ◌<◌, [], ◌∷◌, ◌++◌, length, IfOk};

use std::alloc::{AllocError, Global};
use std::marker::Model;

// A list with memory for N items at least. The kit's `ArrayVec` makes its items by their default, and a duty has none.
#[derive(Drop)]
pub(crate) struct Reserved<T, const N: usize> {
    pub(crate) items: Vec<T>,
}

impl<T, const N: usize> Model for Reserved<T, N> {
    ghost use Rattle.std.specs.Prelude.{◌≤◌, List, vec_capacity};

    ghost Value = { List T };

    ghost view = { λ r. r.items.items };

    ghost invariant = { λ r. N ≤ vec_capacity r.items };
}

impl<T: Drop, const N: usize> Reserved<T, N> {
    pub(crate) fn new(heap: Global) -> Result<Reserved<T, N>, AllocError>
        ensures { IfOk result (λ r. r ≡ []) }
    {
        let items = Vec::with_capacity(heap, N)?;
        Ok(Reserved { items })
    }

    pub(crate) fn clear(&mut self)
        ensures { self.new ≡ [] }
    {
        self.items.clear();
    }

    pub(crate) fn push(&mut self, item: T)
        requires { length self.old < N }
        ensures { self.new ≡ self.old ++ item ∷ [] }
    {
        self.items.push_reserved(item);
    }

    pub(crate) fn as_slice(&self) -> &[T]
        ensures { result.now ≡ self.now }
    {
        self.items.as_slice()
    }
}
