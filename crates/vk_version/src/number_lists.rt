//! The numbers of a version.
ghost use Rattle.std.specs.Prelude.{◌≡◌, ◌++◌, ◌∷◌, [], IfOk, OnOk, OnErr};
ghost use Rattle.std.specs.Cmp.Lexicographic.{slice_cmp};
ghost use Rattle.std.specs.Ordering.{nat_cmp};

use smallvec::SmallVec;
use std::alloc::{AllocError, AllocFailed, Global};
use std::cmp::Ordering;
use std::marker::Model;

/// A version's numbers, which contracts see as a list. Up to three take no memory of their own.
#[derive(Drop)]
pub(crate) struct Numbers {
    inner: SmallVec<u64, 3>,
}

impl Model for Numbers {
    ghost use Rattle.std.specs.Prelude.{List, ℕ};

    ghost Value = { List ℕ };

    ghost view = { λ n. n.inner.items };
}

impl Numbers {
    /// No numbers. Takes no memory.
    pub(crate) fn new(alloc: Global) -> Numbers
        ensures { result ≡ [] }
    {
        Numbers {
            inner: SmallVec::new(alloc),
        }
    }

    /// These numbers.
    pub(crate) fn from_slice(alloc: Global, numbers: &[u64]) -> Result<Numbers, AllocError>
        ensures { IfOk result (λ n. n ≡ numbers.now) }
    {
        Ok(Numbers {
            inner: SmallVec::from_slice(alloc, numbers)?,
        })
    }

    /// Puts a number at the end. When memory runs out, the list stays as it was.
    pub(crate) fn push(&mut self, number: u64) -> Result<(), AllocFailed<u64>>
        ensures ok { OnOk result (self.new ≡ self.old ++ number ∷ []) }
        ensures err { OnErr result (self.new ≡ self.old) }
    {
        self.inner.push(number)
    }

    /// Which comes first: the first number that differs tells, or where one of them ends.
    pub(crate) fn compare(&self, other: &Numbers) -> Ordering
        ensures { result ≡ slice_cmp nat_cmp self.now other.now }
    {
        self.inner.as_slice().cmp(&other.inner.as_slice())
    }
}

impl Clone for Numbers {
    ghost is_clone = { λ x y. y ≡ x };

    fn clone(&self) -> Result<Numbers, AllocError> {
        Ok(Numbers {
            inner: SmallVec::from_slice(*self.inner.allocator(), self.inner.as_slice())?,
        })
    }
}
