use vk_base::Text;

/// What is wrong with a file, or at a place in it.
#[derive(Clone, Copy, PartialEq, Eq)]
pub enum Why {
    /// The file isn't there.
    Absent,
    /// The file is longer than its limit.
    Large,
    /// The bytes are no JSON.
    Json,
    /// The value is no object.
    Object,
    /// The value is no list.
    List,
    /// The value is no text.
    Text,
    /// The value is neither `true` nor `false`.
    Bool,
    /// The value is no whole number from 0 to 2^32 - 1.
    Number,
    /// The item of a list is neither a text nor an object.
    Item,
    /// A key that has to be there isn't.
    Missing,
    /// The text is no name.
    Name,
    /// The text is `core` or `default`, which name no feature of a port.
    Reserved,
    /// A second version key.
    TwoVersions,
    /// None of the version keys.
    NoVersion,
    /// The text is no version.
    Version,
    /// A number in the version is too large.
    Range,
    /// The calendar lacks the day.
    Day,
    /// In a platform expression, what may not stand at this byte.
    Unexpected(u32),
    /// In a platform expression, the other operator at this byte.
    Mixed(u32),
    /// In a platform expression, a parenthesis at this byte that isn't closed.
    Open(u32),
    /// A platform expression with too many levels.
    Depth,
    /// The text is no path, or none that may stand there.
    Path,
    /// The text is no kind of registry.
    Kind,
    /// The text is no pattern of ports.
    Pattern,
    /// What stands there stood before.
    Twice,
    /// More than there may be.
    Many,
    /// A line that can't be read, counted from 1.
    Line(u32),
    /// The bytes are no UTF-8.
    Utf8,
}

/// What is wrong with a file, and where.
#[derive(Drop)]
pub struct FileFault {
    /// The place, a JSON Pointer (RFC 6901).
    pub place: Text,
    /// What is wrong there.
    pub why: Why,
}
