ghost use Rattle.std.specs.Prelude.{◌≤◌, length};

use vk_base::List;

/// The bytes of a file that is no longer than the longest that is read.
#[derive(Drop)]
pub struct FileBytes {
    /// The bytes.
    pub bytes: List<u8>,
    ghost small: { length bytes ≤ 16777216 },
}

/// What stands at a path.
#[derive(Drop)]
pub enum Found {
    /// No file.
    Absent,
    /// A file that is longer than the longest that is read.
    TooLarge,
    /// A file with these bytes.
    Bytes(FileBytes),
}
