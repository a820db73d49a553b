//! What troubles are known and ordered by.
ghost use Rattle.std.specs.Prelude.{◌≡◌, ◌++◌, ◌∷◌, [], IfOk, OnOk};

use std::alloc::Global;
use vk_base::{List, Memory, PathParts, TreePath};

/// Parts, each the bytes of a text or one number. Keys are ordered part by part.
pub(crate) type Key = List<List<u32>>;

fn part(alloc: Global, text: &[u8]) -> Result<List<u32>, Memory>
    ensures { IfOk result (λ l. l ≡ text.now) }
{
    let mut part = List::new(alloc);
    for byte in text {
        part.push(u32::from(*byte))?;
    }
    Ok(part)
}

/// A key that begins with this number.
pub(crate) fn key_of_kind(alloc: Global, kind: u32) -> Result<Key, Memory>
    ensures { IfOk result (λ key. key ≡ (kind ∷ []) ∷ []) }
{
    let mut key = List::new(alloc);
    push_number(alloc, &mut key, kind)?;
    Ok(key)
}

/// Puts a number at the end.
pub(crate) fn push_number(alloc: Global, key: &mut Key, number: u32) -> Result<(), Memory>
    ensures { OnOk result (key.new ≡ key.old ++ (number ∷ []) ∷ []) }
{
    key.push(List::from_slice(alloc, &[number])?)?;
    Ok(())
}

/// Puts a text at the end.
pub(crate) fn push_text(alloc: Global, key: &mut Key, text: &[u8]) -> Result<(), Memory>
    ensures { OnOk result (key.new ≡ key.old ++ text.now ∷ []) }
{
    key.push(part(alloc, text)?)?;
    Ok(())
}

/// Puts the parts of a path at the end, its anchor first.
pub(crate) fn push_path(alloc: Global, key: &mut Key, path: &TreePath) -> Result<(), Memory>
    ensures { OnOk result (key.new ≡ key.old ++ path.now) }
{
    let anchor = path.prefix(alloc, 0)?.text(alloc)?;
    push_text(alloc, key, anchor.as_bytes())?;
    let mut parts = path.parts();
    push_parts(alloc, key, &mut parts)
}

// Puts the parts that are left at the end.
fn push_parts(alloc: Global, key: &mut Key, parts: &mut PathParts<'_>) -> Result<(), Memory>
    ensures { OnOk result (key.new ≡ key.old ++ parts.old) }
{
    while let Some(part) = parts.next() {
        push_text(alloc, key, part.as_bytes())?;
    }
    Ok(())
}
