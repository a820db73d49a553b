//! Texts without control characters.
ghost use Rattle.std.specs.Prelude.{◌≡◌, ◌&&◌, not};
ghost use Rattle.std.specs.List.{list_all, list_any};
ghost use Rattle.std.specs.Char.{is_ascii_control};
ghost use Rattle.vk_version.specs.Texts.{is_plain, is_hash};

// Whether no byte is a control character.
fn has_no_control(text: &[u8]) -> bool
    ensures { result ≡ list_all (λ b. not (is_ascii_control b)) text.now }
{
    text.iter().all(|byte| !byte.is_ascii_control())
}

/// Whether a text has bytes, and no control characters among them: so is a version's text in an
/// ask, and a baseline's name. Takes no memory.
pub fn is_plain(text: &[u8]) -> bool
    ensures { result ≡ is_plain text.now }
{
    !text.is_empty() && has_no_control(text)
}

// Whether a text has a hash.
fn has_hash(text: &[u8]) -> bool
    ensures { result ≡ list_any is_hash text.now }
{
    text.iter().any(|byte| *byte == b'#')
}

/// Whether a text is a version of any text: it is plain, and has no hash. Takes no memory.
pub fn is_version_string(text: &[u8]) -> bool
    ensures { result ≡ (is_plain text.now && not (list_any is_hash text.now)) }
{
    is_plain(text) && !has_hash(text)
}
