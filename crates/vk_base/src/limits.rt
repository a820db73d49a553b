//! What may not grow without bound.

/// A limit that was passed.
#[derive(Clone, Copy, Debug, PartialEq, Eq)]
pub enum Limit {
    /// So many requirements, or more, of a project.
    Facts(u32),
    /// 100,000 entries of one folder.
    Entries,
    /// 1,000,000 files below one folder.
    Files,
    /// 64 folders, each in the one before.
    Depth,
    /// So many bytes of files.
    Bytes(u64),
    /// 10,000 names of an agent where packages are made.
    Tmp,
    /// 10,000 names of an agent where damaged packages are set aside.
    Damaged,
}
