//! Names that a folder may have in it.
ghost use Rattle.std.specs.Prelude.{◌≡◌};
ghost use Rattle.vk_base.specs.Paths.{is_part, lacks};

/// Whether a text may be a part of a path: not empty, neither `.` nor `..`, with no `/` and no
/// byte 0. Takes no memory.
pub fn may_be_part(text: &str) -> bool
    ensures { result ≡ is_part text.now }
{
    !text.is_empty()
        && text != "."
        && text != ".."
        && lacks(text.as_bytes(), b'/')
        && lacks(text.as_bytes(), 0)
}

fn lacks(text: &[u8], byte: u8) -> bool
    ensures { result ≡ lacks byte text.now }
{
    !text.contains(&byte)
}
