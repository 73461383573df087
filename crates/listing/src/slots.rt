//! A list of at most so many values, which lie in the value itself.

ghost use Rattle.std.specs.Prelude.{◌≡◌, ◌<◌, ◌≤◌, [], ◌∷◌, ◌++◌, length, ⊤};

use std::alloc::AllocError;

/// At most N values, in order.
// (C): fixed memory, since the listing takes no heap; and `Copy`, which an `ArrayVec` is not.
pub struct Slots<T, const N: usize> {
    values: [T; N],
    len: usize,
    ghost within: { len ≤ N },
}

impl<T: Copy, const N: usize> Copy for Slots<T, N> {}

impl<T: Copy, const N: usize> Clone for Slots<T, N> {
    ghost is_clone = { λ s t. t ≡ s };

    ghost is_infallible = { λ _. ⊤ };

    fn clone(&self) -> Result<Self, AllocError> {
        Ok(*self)
    }
}

impl<T: Copy + Default, const N: usize> Slots<T, N> {
    ghost use Rattle.listing.specs.Slots.{items_of};

    /// A list of no values.
    #[tactic(auto, unfolding(crate::specs::Slots::items_of))]
    pub fn new() -> Self
        ensures { items_of result ≡ [] }
    {
        Slots {
            values: [T::default(); N],
            len: 0,
        }
    }

    /// How many values there are.
    pub fn len(&self) -> usize
        ensures { result ≡ length (items_of self.now) }
    {
        self.as_slice().len()
    }

    /// The values.
    #[tactic(auto, unfolding(crate::specs::Slots::items_of))]
    pub fn as_slice(&self) -> &[T]
        ensures { result.now ≡ items_of self.now }
    {
        &self.values[..self.len]
    }

    /// Appends a value, for which there is room.
    #[tactic(auto, unfolding(crate::specs::Slots::items_of))]
    pub fn push(&mut self, value: T)
        requires { length (items_of self.old) < N }
        ensures { items_of self.new ≡ items_of self.old ++ value ∷ [] }
    {
        self.values[self.len] = value;
        self.len += 1;
    }
}
