//! Bytes, line by line.
ghost use Rattle.std.specs.Prelude.{◌≡◌, ◌++◌, ◌∷◌, MatchOption};
ghost use Rattle.vk_base.specs.Paths.{Lacks};
ghost use Rattle.vk_forms.specs.Lines.{NoLine};

/// What stands before the first line feed, and what behind it. `None` exactly where there is none.
pub fn cut_line(bytes: &[u8]) -> Option<(&[u8], &[u8])>
    ensures { MatchOption result (Lacks 10 bytes.now)
        (λ p. (bytes.now ≡ p.0.now ++ 10 ∷ p.1.now) × Lacks 10 p.0.now) }
{
    let end = bytes.iter().position(|b| *b == b'\n')?;
    Some((&bytes[..end], &bytes[end + 1..]))
}

/// The first line, and what stands behind it. `None` exactly where the bytes begin with no line
/// that is a text.
pub fn next_line(bytes: &[u8]) -> Option<(&str, &[u8])>
    ensures { MatchOption result (NoLine bytes.now)
        (λ p. (bytes.now ≡ p.0.now ++ 10 ∷ p.1.now) × Lacks 10 p.0.now) }
{
    let (line, rest) = cut_line(bytes)?;
    match str::from_utf8(line) {
        Ok(text) => Some((text, rest)),
        Err(_) => None,
    }
}
