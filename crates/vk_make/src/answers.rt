//! What the making of a plan's packages comes to.

use vk_base::{Limit, List};
use vk_entry::Package;
use vk_look::Harm;

/// How an item's package was had.
#[derive(Clone, Copy, Debug, PartialEq, Eq)]
pub enum Mark {
    /// A whole entry of the cache had it.
    Restored,
    /// It was built, since the cache had no entry.
    Built,
    /// It was built, since the entry was damaged.
    Rebuilt(Harm),
}

/// Why an item has no package.
#[derive(Clone, Copy, Debug, PartialEq, Eq)]
pub enum MakeEnd {
    /// An earlier item, or a valid entry of another text, has the digest of the item with this
    /// place in the plan, counted from 0.
    Collision { item: u32 },
    /// A limit was passed.
    Limit(Limit),
    /// It was refused to supply a package.
    Refused,
}

/// The packages of a plan's items, and how each was had, in the order of the plan.
#[derive(Drop)]
pub struct MakeItems {
    /// How each was had.
    pub made: List<Mark>,
    /// The packages.
    pub packages: List<Package>,
}
