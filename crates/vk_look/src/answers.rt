//! What a look at an entry of a cache answers.

use vk_base::List;
use vk_entry::Package;

/// How an entry is damaged: the first of these that is so.
#[derive(Clone, Copy, Debug, PartialEq, Eq)]
pub enum Harm {
    /// The entry is a file, or its text is absent, too long or of another digest.
    Text,
    /// Its contents list is absent, too long or can't be read.
    Contents,
    /// A file isn't listed, or a walk of the entry passes a limit.
    Extra,
    /// A listed file isn't there.
    Missing,
    /// The first file by path that isn't as it is listed has another size.
    Size,
    /// The first file by path that isn't as it is listed has another digest.
    Hash,
}

/// What stands at an entry.
#[derive(Drop)]
pub enum Look {
    /// The package of the text.
    Hit(Package),
    /// Nothing.
    Absent,
    /// A damaged entry.
    Damaged(Harm),
    /// A valid entry of another text, which is this one.
    Collision(List<u8>),
}
