/// What is wrong with a project that has no closure.
#[derive(Clone, Copy, Debug, PartialEq, Eq)]
pub enum CloseFault {
    /// It requires more facts than there may be, which is that number.
    Facts(u32),
}
