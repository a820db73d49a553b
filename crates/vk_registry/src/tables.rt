//! A versions file: the versions of a port that a registry has, each with the port's folder.
ghost use Rattle.std.specs.Prelude.{◌≡◌, ◌↔◌, ◌++◌, ◌∷◌, [], List, ℕ, Ok, None, map, IfOk, IfSome};
ghost use Rattle.std.specs.Prelude.{OnOk};
ghost use Rattle.vk_json.specs.Values.{view};
ghost use Rattle.vk_spec.specs.Reading.{Gives};
ghost use Rattle.vk_spec.specs.Versions as plain;
ghost use Rattle.vk_version.specs.AskViews.{ask_view};
ghost use Rattle.vk_base.specs.Stops.{fault_in};
ghost use Rattle.vk_registry.specs.Tables as plain_table;
ghost use Rattle.vk_registry.specs.Tables.{ask_in, row_at, new_ask, row_from, rows_at};
ghost use Rattle.vk_registry.specs.Tables.{table_at, table_of, IsTable, IsRowAt, HasNoRow};
ghost use Rattle.vk_registry.specs.TableViews.{row_view};

use crate::folders::FolderText;
use indexmap::IndexSet;
use std::alloc::Global;
use std::marker::Model;
use vk_base::{List, TreePath, Unread};
use vk_fields::version_needed;
use vk_json::{
    Doc, FileFault, NewItemReader, Reader, Scratch, Value, Why, each_new_item, object, wanted,
    wrong,
};
use vk_version::{Ask, Version};

/// A version of a port, and the port's folder.
#[derive(Drop)]
pub struct Row {
    /// The version.
    pub version: Version,
    /// The folder, from the registry on: not rooted, and without steps up.
    pub path: TreePath,
}

/// The versions of a port that a registry has. No two have the same text and port-version.
#[derive(Drop)]
pub struct Table {
    rows: List<Row>,
    /// The text and the port-version of each row, so that a row is found without a scan.
    asks: IndexSet<Ask>,
}

impl Model for Table {
    ghost use Rattle.std.specs.Prelude.{List, map, ◌≡◌};
    ghost use Rattle.vk_version.specs.AskViews.{ask_view};
    ghost use Rattle.vk_registry.specs.Tables.{Row, IsTable, asks_of};
    ghost use Rattle.vk_registry.specs.TableViews.{row_view};

    ghost Value = { List Row };

    ghost view = { λ t. map row_view t.rows };

    ghost invariant = { λ t. (map ask_view t.asks.keys ≡ asks_of (map row_view t.rows))
        × IsTable (map row_view t.rows) };
}

impl Table {
    /// The rows, in the order of the file.
    pub fn rows(&self) -> &[Row]
        ensures rows { map row_view result.now ≡ self.now }
        ensures table { IsTable self.now }
    {
        self.rows.as_slice()
    }
}

#[tactic(auto, unfolding(crate::specs::Tables::row_at))]
fn read_row(alloc: Global, value: &Value) -> Result<Row, Unread<FileFault>>
    ensures { Gives row_view fault_in result (row_at (view value.now)) }
{
    object(alloc, value)?;
    let version = version_needed(alloc, value)?;
    let path = wanted(alloc, value, "path", &FolderText)?;
    Ok(Row { version, path })
}

// That no row before has the text and the port-version of this one, which are then noted.
fn note_ask(alloc: Global, asks: &mut IndexSet<Ask>, row: &Row) -> Result<(), Unread<FileFault>>
    ensures new { Gives (λ done. tt) fault_in result
        (new_ask (map ask_view asks.old.keys) (ask_in (row_view row.now))) }
    ensures noted { OnOk result (map ask_view asks.new.keys ≡ map ask_view asks.old.keys
        ++ ask_in (row_view row.now) ∷ []) }
{
    let ask = row.version.ask().clone()?;
    let new = asks.insert(ask)?;
    if new {
        return Ok(());
    }
    Err(wrong(alloc, Why::Twice))
}

// Reads a row, whose text and port-version no row before has.
#[derive(Drop)]
struct NewRow;

#[tactic(auto, unfolding(crate::specs::Tables::row_from))]
impl NewItemReader for NewRow {
    type Out = Row;

    type Key = Ask;

    ghost Plain = { plain_table.Row };

    ghost plain = { row_view };

    ghost PlainKey = { plain.Ask };

    ghost plain_key = { ask_view };

    ghost key_of = { ask_in };

    ghost reads = { λ r. row_from };

    fn read(
        &self,
        alloc: Global,
        value: &Value,
        asks: &mut IndexSet<Ask>,
    ) -> Result<Row, Unread<FileFault>> {
        let row = read_row(alloc, value)?;
        note_ask(alloc, asks, &row)?;
        Ok(row)
    }
}

// Reads the rows of a versions file.
#[derive(Drop)]
struct Rows;

impl Reader for Rows {
    type Out = Table;

    ghost Plain = { List plain_table.Row };

    ghost plain = { λ t. t };

    ghost reads = { λ r. rows_at };

    fn read(&self, alloc: Global, value: &Value) -> Result<Table, Unread<FileFault>> {
        let (rows, asks) = each_new_item(alloc, value, &NewRow)?;
        Ok(Table { rows, asks })
    }
}

/// Reads a port's versions file that is read already; its faults are those of `read_table`, but for
/// bytes that are no document.
#[tactic(auto, unfolding(crate::specs::Tables::table_at))]
pub fn table_in(alloc: Global, value: &Value) -> Result<Table, Unread<FileFault>>
    ensures { Gives (λ t. t) fault_in result (table_at (view value.now)) }
{
    object(alloc, value)?;
    wanted(alloc, value, "versions", &Rows)
}

/// Reads a port's versions file. `Missing` and `List` come where `versions` isn't there or is no
/// list, `NoVersion` at an item without a version, `Twice` at an item whose text and port-version
/// an item before has; else the first fault of the items, in order.
pub fn read_table(alloc: Global, bytes: &[u8]) -> Result<Table, Unread<FileFault>>
    ensures { Gives (λ t. t) fault_in result (table_of bytes.now) }
{
    let mut scratch = Scratch::new(alloc);
    let doc = Doc::read(alloc, bytes, &mut scratch)?;
    table_in(alloc, doc.value())
}

/// The place of the row with the text and the port-version of an ask; `None` exactly where no row
/// has them. Takes no memory.
pub fn find(table: &Table, ask: &Ask) -> Option<usize>
    ensures found { IfSome result (IsRowAt table.now (ask_view ask.now)) }
    ensures none { (result ≡ None) ↔ HasNoRow table.now (ask_view ask.now) }
{
    table.asks.get_index_of(ask)
}

/// What a versions file says is a table: no two rows have the same text and port-version, and each
/// folder is below the registry. At most one row has an ask.
pub fn table_rule()
    ensures table { (bytes : List ℕ) (rows : List plain_table.Row)
        → table_of bytes ≡ Ok rows → IsTable rows }
    ensures one { (rows : List plain_table.Row) (ask : plain.Ask) (place other : ℕ) → IsTable rows
        → IsRowAt rows ask place → IsRowAt rows ask other → place ≡ other }
{}
