//! The row of a table that is meant, or that has a version.
ghost use Rattle.std.specs.Prelude.{◌≡◌, option_map, slice_get};
ghost use Rattle.std.specs.List.{find};
ghost use Rattle.std.specs.Option.{option_copied};
ghost use Rattle.vk_spec.specs.Versions.{same_version};
ghost use Rattle.vk_registry.specs.Tables.{IsTable};
ghost use Rattle.vk_registry.specs.TableViews.{row_view};
ghost use Rattle.vk_version.specs.AskViews.{ask_view};
ghost use Rattle.vk_world.specs.Listed.{row_meant};

use vk_registry::{Row, Table, find};
use vk_version::{Ask, Version};

// The row at a place.
fn row_at(table: &Table, place: usize) -> Option<&Row>
    ensures row { option_map (λ r. row_view r.now) result ≡ slice_get table.now place }
    ensures table { IsTable table.now }
{
    table.rows().get(place)
}

/// The row of a table that an ask means; `None` exactly where there is none.
pub fn row_meant<'a>(table: &'a Table, ask: &Ask) -> Option<&'a Row>
    ensures { option_map (λ r. row_view r.now) result ≡ row_meant table.now (ask_view ask.now) }
{
    match find(table, ask) {
        Some(place) => row_at(table, place),
        None => None,
    }
}

/// Whether versions are one: in class, text and port-version.
pub fn same_version(one: &Version, other: &Version) -> bool
    ensures { result ≡ same_version one.now other.now }
{
    one.class() == other.class() && (one.text() == other.text() && one.port() == other.port())
}

/// The row that has a version; `None` exactly where there is none. It looks at the rows in order.
pub fn row_with<'a>(rows: &'a [Row], version: &Version) -> Option<&'a Row>
    ensures { option_copied result ≡ find (λ r. same_version version.now r.version) rows.now }
{
    rows.iter().find(|row| same_version(version, &row.version))
}
