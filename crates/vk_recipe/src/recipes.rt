use vk_base::{FeatureName, List, PortName, Text, TreePath};
use vk_expr::Expr;

/// What a step makes its file of.
#[derive(Drop)]
pub enum Action {
    /// The file at this path in the port's folder.
    Copy(TreePath),
    /// This text.
    Write(Text),
    /// A file in the package of a direct dependency.
    Take {
        /// Its path in that package.
        file: TreePath,
        /// The dependency's port.
        from: PortName,
        /// Whether the dependency for the host triplet is meant, in place of the item's own.
        host: bool,
    },
    /// The line that says which item is built.
    Info,
}

/// A step of a recorded build: it makes one file.
#[derive(Drop)]
pub struct Step {
    /// What the file is made of.
    pub action: Action,
    /// Its path in the package: not rooted, without steps up, with 1 to 60 parts.
    pub to: TreePath,
    /// Where the step applies.
    pub platform: Expr,
    /// The feature with which alone it applies, if there is one.
    pub feature: Option<FeatureName>,
}

/// A recorded build: at most 50,000 steps, which are done in order.
#[derive(Drop)]
pub struct Recipe {
    pub steps: List<Step>,
}
