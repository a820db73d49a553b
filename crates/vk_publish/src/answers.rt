//! What a publishing, and a setting aside, came to.

/// What a publishing came to.
#[derive(Clone, Copy, Debug, PartialEq, Eq)]
pub enum Published {
    /// The entry is there, whole, and wasn't before.
    Now,
    /// Something stood there already.
    Already,
    /// What was to be moved there was gone.
    Gone,
}

/// What a setting aside came to.
#[derive(Clone, Copy, Debug, PartialEq, Eq)]
pub enum Moved {
    /// The entry was moved.
    Done,
    /// Nothing stood there.
    Gone,
    /// Something stood already where it was to be moved.
    Taken,
}
