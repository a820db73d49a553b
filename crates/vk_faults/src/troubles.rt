//! What may be wrong with the files that a fact needs.
ghost use Rattle.std.specs.Prelude.{◌≡◌, ◌∷◌, [], IfOk};
ghost use Rattle.vk_json.specs.Words.{word_of};
ghost use Rattle.vk_version.specs.AskViews.{ask_view};
ghost use Rattle.vk_resolution.specs.Faults.{trouble_key, wrong_of, field_number, troubled};
ghost use Rattle.vk_resolution.specs.Faults as plain;
ghost use Rattle.vk_model.specs.WrongViews.{field_view, wrong_view};
ghost use Rattle.vk_model.specs.FaultViews.{fault_view};
ghost use Rattle.vk_faults.specs.Troubles.{trouble_view};

use crate::keys::{Key, key_of_kind, push_number, push_path, push_text};
use std::alloc::Global;
use vk_base::{Memory, PortName, Text, TreePath};
use vk_json::Why;
use vk_model::{Fault, Field, Wrong};
use vk_version::Ask;

/// What is wrong with a port or a manifest of it, or a version that its table lacks: a fault of the
/// first phase, without the line that it cites.
#[derive(Drop)]
pub(crate) enum Trouble {
    Wrong { port: PortName, wrong: Wrong },
    NoVersion { port: PortName, ask: Ask },
}

fn field_number(field: Field) -> u32
    ensures { result ≡ field_number (field_view field) }
{
    match field {
        Field::Name => 0,
        Field::Class => 1,
        Field::Text => 2,
        Field::Port => 3,
    }
}

fn port_key(alloc: Global, kind: u32, port: &PortName) -> Result<Key, Memory>
    ensures { IfOk result (λ key. key ≡ (kind ∷ []) ∷ port.now ∷ []) }
{
    let mut key = key_of_kind(alloc, kind)?;
    push_text(alloc, &mut key, port.as_str().as_bytes())?;
    Ok(key)
}

fn file_key(alloc: Global, path: &TreePath, place: &Text, why: Why) -> Result<Key, Memory>
    ensures { IfOk result
        (λ key. key ≡ trouble_key (plain.unreadable path.now place.now (word_of why))) }
{
    let mut key = key_of_kind(alloc, 2)?;
    push_text(alloc, &mut key, place.as_bytes())?;
    push_text(alloc, &mut key, why.word(alloc)?.as_bytes())?;
    push_path(alloc, &mut key, path)?;
    Ok(key)
}

fn version_key(alloc: Global, port: &PortName, ask: &Ask) -> Result<Key, Memory>
    ensures { IfOk result
        (λ key. key ≡ trouble_key (plain.lacks_version port.now (ask_view ask.now))) }
{
    let mut key = port_key(alloc, 3, port)?;
    push_text(alloc, &mut key, ask.text.as_bytes())?;
    push_number(alloc, &mut key, ask.port)?;
    Ok(key)
}

fn disagrees_key(
    alloc: Global,
    path: &TreePath,
    field: Field,
    table: &Text,
    manifest: &Text,
) -> Result<Key, Memory>
    ensures { IfOk result (λ key. key ≡ trouble_key
        (plain.differs path.now (field_view field) table.now manifest.now)) }
{
    let mut key = key_of_kind(alloc, 4)?;
    push_number(alloc, &mut key, field_number(field))?;
    push_text(alloc, &mut key, table.as_bytes())?;
    push_text(alloc, &mut key, manifest.as_bytes())?;
    push_path(alloc, &mut key, path)?;
    Ok(key)
}

fn wrong_key(alloc: Global, port: &PortName, wrong: &Wrong) -> Result<Key, Memory>
    ensures { IfOk result (λ key. key ≡ trouble_key (wrong_of port.now (wrong_view wrong.now))) }
{
    match wrong {
        Wrong::NoRegistry => port_key(alloc, 0, port),
        Wrong::NoBaseline => port_key(alloc, 1, port),
        Wrong::BadFile { path, place, why } => file_key(alloc, path, place, *why),
        Wrong::Disagrees {
            path,
            field,
            table,
            manifest,
        } => disagrees_key(alloc, path, *field, table, manifest),
    }
}

fn wrong_fault(port: PortName, wrong: Wrong, line: u32) -> Fault
    ensures { fault_view result ≡ troubled (wrong_of port (wrong_view wrong)) line }
{
    match wrong {
        Wrong::NoRegistry => Fault::NoRegistry { port, line },
        Wrong::NoBaseline => Fault::NoBaseline { port, line },
        Wrong::BadFile { path, place, why } => Fault::BadFile {
            path,
            place,
            why,
            line,
        },
        Wrong::Disagrees {
            path,
            field,
            table,
            manifest,
        } => Fault::Disagrees {
            path,
            field,
            table,
            manifest,
            line,
        },
    }
}

impl Trouble {
    /// What it is known and ordered by.
    pub(crate) fn key(&self, alloc: Global) -> Result<Key, Memory>
        ensures { IfOk result (λ key. key ≡ trouble_key (trouble_view self.now)) }
    {
        match self {
            Trouble::Wrong { port, wrong } => wrong_key(alloc, port, wrong),
            Trouble::NoVersion { port, ask } => version_key(alloc, port, ask),
        }
    }

    /// The fault that cites this line.
    pub(crate) fn on_line(self, line: u32) -> Fault
        ensures { fault_view result ≡ troubled (trouble_view self) line }
    {
        match self {
            Trouble::Wrong { port, wrong } => wrong_fault(port, wrong, line),
            Trouble::NoVersion { port, ask } => Fault::NoVersion { port, ask, line },
        }
    }
}
