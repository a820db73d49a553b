ghost use Rattle.std.specs.Prelude.{◌≡◌, ◌++◌, ◌∷◌, ◌<◌, ◌≤◌, [], ℕ, List, OnOk};
ghost use Rattle.std.specs.Prelude.{bytes_eq, length, zip, if◌then◌else◌};
ghost use Rattle.vk_worklist.specs.Places.{IsSeat};
ghost use Rattle.vk_worklist.specs.Rows.{needs_of, floors_of};

use std::alloc::{AllocError, Global};

/// The lines of a port's needs and of those of its floors that are visited, counted from 1.
#[derive(Drop)]
pub struct Row {
    pub needs: Vec<u32>,
    pub floors: Vec<u32>,
}

// A row without lines.
fn empty_row(alloc: Global) -> Row
    ensures needs { result.needs.items ≡ [] }
    ensures floors { result.floors.items ≡ [] }
{
    Row {
        needs: Vec::new(alloc),
        floors: Vec::new(alloc),
    }
}

// Sees to it that there is a row at a place: puts empty ones behind the others.
pub(crate) fn see_to_row(alloc: Global, rows: &mut Vec<Row>, place: usize) -> Result<(), AllocError>
    ensures there { OnOk result (place < length rows.new.items) }
    ensures few { OnOk result ((most : ℕ) → length rows.old.items ≤ most → place < most
        → length rows.new.items ≤ most) }
    ensures needs { OnOk result ((seats : List (List ℕ)) (p : List ℕ) →
        needs_of (zip seats rows.new.items) p ≡ needs_of (zip seats rows.old.items) p) }
    ensures floors { OnOk result ((seats : List (List ℕ)) (p : List ℕ) →
        floors_of (zip seats rows.new.items) p ≡ floors_of (zip seats rows.old.items) p) }
{
    while rows.len() <= place {
        rows.push(empty_row(alloc))?;
    }
    Ok(())
}

// One need more in the row at a place.
pub(crate) fn add_need(rows: &mut Vec<Row>, place: usize, line: u32) -> Result<(), AllocError>
    requires { place < length rows.old.items }
    ensures len { length rows.new.items ≡ length rows.old.items }
    ensures needs { OnOk result ((seats : List (List ℕ)) (port p : List ℕ) →
        IsSeat seats port place → needs_of (zip seats rows.new.items) p
        ≡ needs_of (zip seats rows.old.items) p ++ (if bytes_eq port p then line ∷ [] else [])) }
    ensures floors { OnOk result ((seats : List (List ℕ)) (p : List ℕ) →
        floors_of (zip seats rows.new.items) p ≡ floors_of (zip seats rows.old.items) p) }
{
    rows[place].needs.push(line)?;
    Ok(())
}

// One floor more in the row at a place.
pub(crate) fn add_floor(rows: &mut Vec<Row>, place: usize, line: u32) -> Result<(), AllocError>
    requires { place < length rows.old.items }
    ensures len { length rows.new.items ≡ length rows.old.items }
    ensures floors { OnOk result ((seats : List (List ℕ)) (port p : List ℕ) →
        IsSeat seats port place → floors_of (zip seats rows.new.items) p
        ≡ floors_of (zip seats rows.old.items) p ++ (if bytes_eq port p then line ∷ [] else [])) }
    ensures needs { OnOk result ((seats : List (List ℕ)) (p : List ℕ) →
        needs_of (zip seats rows.new.items) p ≡ needs_of (zip seats rows.old.items) p) }
{
    rows[place].floors.push(line)?;
    Ok(())
}

// The lines of the needs in the row at a place.
pub(crate) fn needs_at(rows: &[Row], place: usize) -> &[u32]
    requires { place < length rows.now }
    ensures { (seats : List (List ℕ)) (port : List ℕ) → IsSeat seats port place
        → result.now ≡ needs_of (zip seats rows.now) port }
{
    rows[place].needs.as_slice()
}

// The lines of the visited floors in the row at a place.
pub(crate) fn floors_at(rows: &[Row], place: usize) -> &[u32]
    requires { place < length rows.now }
    ensures { (seats : List (List ℕ)) (port : List ℕ) → IsSeat seats port place
        → result.now ≡ floors_of (zip seats rows.now) port }
{
    rows[place].floors.as_slice()
}
