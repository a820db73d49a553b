use vk_base::Text;

/// A condition on platforms. Contracts see it as its tree.
#[derive(Drop)]
pub enum Expr {
    /// The condition of a blank text: always true.
    Always,
    /// True where the platform has this mark.
    Mark(Text),
    /// True where its member isn't.
    Not(Box<Expr>),
    /// True where each member is. A text gives it two members or more.
    All(Vec<Expr>),
    /// True where a member is. A text gives it two members or more.
    Any(Vec<Expr>),
}
