/// Why a text is no platform expression. Places are byte offsets from 0.
#[derive(Clone, Copy, Debug, PartialEq, Eq)]
pub enum ExprFault {
    /// What stands here can't; at the text's length, the text ends too early.
    Unexpected {
        /// Where it stands.
        at: u32,
    },
    /// This operator is of the other kind than those before it at its level.
    Mixed {
        /// Where it stands.
        at: u32,
    },
    /// The text ends inside this parenthesis, the innermost open one.
    Open {
        /// Where it stands.
        at: u32,
    },
    /// More than 64 NOTs and parentheses are open at one point.
    Deep,
}
