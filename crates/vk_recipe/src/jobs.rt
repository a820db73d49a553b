//! What a package is built from.
use vk_base::Instance;
use vk_entry::Package;
use vk_expr::Marks;
use vk_model::Item;

/// An item that is to be built, with all that its steps may use.
#[derive(Clone, Copy)]
pub struct Job<'a> {
    /// The item.
    pub item: &'a Item,
    /// The marks of its triplet, with `native` where that is the host triplet.
    pub marks: &'a Marks,
    /// The files of the port's folder.
    pub folder: &'a Package,
    /// The direct dependencies.
    pub deps: &'a [Child<'a>],
}

/// A direct dependency, and its package.
#[derive(Clone, Copy)]
pub struct Child<'a> {
    pub inst: &'a Instance,
    pub package: &'a Package,
}
