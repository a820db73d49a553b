//! What is published or set aside, and by whom.
ghost use Rattle.std.specs.Prelude.{◌≡◌, None};
ghost use Rattle.vk_base.specs.Names.{name_fault, word_rule};

use std::alloc::Global;
use vk_base::TreePath;
use vk_digest::Digest;
use vk_entry::Package;

/// An entry of a cache, and the agent that works on it, whose name has no fault.
#[derive(Clone, Copy)]
pub struct Target<'a> {
    /// Where memory comes from.
    pub alloc: Global,
    /// The cache.
    pub cache: &'a TreePath,
    /// The agent's name.
    pub agent: &'a str,
    /// The digest of the entry's text.
    pub digest: &'a Digest,
    /// The agent's name has no fault.
    pub ghost named: { name_fault word_rule agent.now ≡ None },
}

/// What an entry is to hold.
#[derive(Clone, Copy)]
pub struct PublishJob<'a> {
    /// The entry, and the agent that publishes it.
    pub target: Target<'a>,
    /// Its text.
    pub text: &'a [u8],
    /// Its package.
    pub built: &'a Package,
}
