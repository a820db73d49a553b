/// Why bytes are no triplet file.
#[derive(Clone, Copy, Debug, PartialEq, Eq)]
pub enum TripletFault {
    /// The first line that is neither empty nor a comment nor a `set` of the plain form, counted
    /// from 1.
    Line { n: u32 },
    /// The bytes are no UTF-8.
    NotText,
}
