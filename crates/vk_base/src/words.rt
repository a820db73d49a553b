use crate::texts::Text;

/// A word of the command line.
#[derive(Drop)]
pub enum Word {
    /// A word that is UTF-8.
    Text(Text),
    /// A word that isn't.
    NotText,
}
