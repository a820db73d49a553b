//! A baseline: what is asked for of each port where nothing else says so.
ghost use Rattle.std.specs.Prelude.{◌≡◌, ◌==◌, ◌↔◌, List, ℕ, Option, Some, None, Ok, map};
ghost use Rattle.std.specs.Prelude.{option_map, slice_index, IfOk, IfSome, OnOk};
ghost use Rattle.std.specs.List.{Contains};
ghost use Rattle.vk_json.specs.Values.{view};
ghost use Rattle.vk_spec.specs.Reading.{Gives};
ghost use Rattle.vk_spec.specs.Versions as plain_version;
ghost use Rattle.vk_version.specs.AskViews.{ask_view};
ghost use Rattle.vk_base.specs.Stops.{fault_in};
ghost use Rattle.vk_registry.specs.Baselines as plain;
ghost use Rattle.vk_registry.specs.Baselines.{is_note, entry_at, entry_unless_note, those_there};
ghost use Rattle.vk_registry.specs.Baselines.{entries_at, baseline_at, baseline_by, IsInOrder};
ghost use Rattle.vk_registry.specs.Baselines.{ask_for};
ghost use Rattle.vk_registry.specs.BaselineViews.{entry_view};

use std::alloc::{AllocError, Global};
use std::marker::Model;
use vk_base::{List, Memory, PortName, Unread};
use vk_fields::{ask_under, port_name_of};
use vk_json::{Doc, FileFault, MemberReader, Reader, Scratch, Value, each_member, object, wanted};
use vk_version::Ask;

/// A port, and what is asked for of it.
#[derive(Drop)]
pub struct BaselineEntry {
    /// The port.
    pub port: PortName,
    /// The version that it has where nothing else asks for more.
    pub ask: Ask,
}

/// What is asked for of each port where nothing else says so. The entries stand in byte order of
/// the ports, each port once.
#[derive(Drop)]
pub struct Baseline {
    entries: List<BaselineEntry>,
}

impl Model for Baseline {
    ghost use Rattle.std.specs.Prelude.{List, map};
    ghost use Rattle.vk_registry.specs.Baselines.{Entry, IsInOrder};
    ghost use Rattle.vk_registry.specs.BaselineViews.{entry_view};

    ghost Value = { List Entry };

    ghost view = { λ b. map entry_view b.entries };

    ghost invariant = { λ b. IsInOrder (map entry_view b.entries) };
}

impl Baseline {
    /// The entries, in byte order of the ports.
    pub fn entries(&self) -> &[BaselineEntry]
        ensures entries { map entry_view result.now ≡ self.now }
        ensures order { IsInOrder self.now }
    {
        self.entries.as_slice()
    }
}

fn is_note(key: &str) -> bool
    ensures { result ≡ is_note key.now }
{
    match key.as_bytes() {
        [first, ..] => *first == b'$',
        [] => false,
    }
}

#[tactic(auto, unfolding(crate::specs::Baselines::entry_at))]
fn read_entry(alloc: Global, key: &str, value: &Value) -> Result<BaselineEntry, Unread<FileFault>>
    ensures { Gives entry_view fault_in result (entry_at key.now (view value.now)) }
{
    let port = port_name_of(alloc, key)?;
    object(alloc, value)?;
    let ask = ask_under(alloc, value, "baseline")?;
    Ok(BaselineEntry { port, ask })
}

// Reads a member of a baseline: nothing where it is a note, else an entry.
#[derive(Drop)]
struct EntryUnlessNote;

#[tactic(auto, unfolding(crate::specs::Baselines::entry_unless_note))]
impl MemberReader for EntryUnlessNote {
    type Out = Option<BaselineEntry>;

    ghost Plain = { Option plain.Entry };

    ghost plain = { option_map entry_view };

    ghost reads = { λ r. entry_unless_note };

    fn read(
        &self,
        alloc: Global,
        key: &str,
        value: &Value,
    ) -> Result<Option<BaselineEntry>, Unread<FileFault>> {
        if is_note(key) {
            return Ok(None);
        }
        Ok(Some(read_entry(alloc, key, value)?))
    }
}

fn those_there<T: Drop>(alloc: Global, found: List<Option<T>>) -> Result<List<T>, Memory>
    ensures { IfOk result (λ there. there ≡ those_there found) }
{
    let mut there = List::new(alloc);
    for one in found.into_vec() {
        if let Some(one) = one {
            there.push(one)?;
        }
    }
    Ok(there)
}

// Reads the entries of a baseline.
#[derive(Drop)]
struct Entries;

#[tactic(auto, unfolding(crate::specs::Baselines::entries_at))]
impl Reader for Entries {
    type Out = Baseline;

    ghost Plain = { List plain.Entry };

    ghost plain = { λ b. b };

    ghost reads = { λ r. entries_at };

    fn read(&self, alloc: Global, value: &Value) -> Result<Baseline, Unread<FileFault>> {
        let found = each_member(alloc, value, &EntryUnlessNote)?;
        let entries = those_there(alloc, found)?;
        Ok(Baseline { entries })
    }
}

/// Reads the baseline of this name in a baseline file that is read already; its faults are those of
/// `read_baseline`, but for bytes that are no document.
#[tactic(auto, unfolding(crate::specs::Baselines::baseline_at))]
pub fn baseline_in(alloc: Global, value: &Value, name: &str) -> Result<Baseline, Unread<FileFault>>
    ensures { Gives (λ b. b) fault_in result (baseline_at name.now (view value.now)) }
{
    object(alloc, value)?;
    wanted(alloc, value, name, &Entries)
}

/// Reads the baseline of this name in a baseline file. `Missing` comes at its place where there is
/// none, `Name` at a key that is no port's name and doesn't begin with `$`; else the first fault of
/// the entries, in byte order of the ports.
pub fn read_baseline(alloc: Global, bytes: &[u8], name: &str) -> Result<Baseline, Unread<FileFault>>
    ensures { Gives (λ b. b) fault_in result (baseline_by name.now bytes.now) }
{
    let mut scratch = Scratch::new(alloc);
    let doc = Doc::read(alloc, bytes, &mut scratch)?;
    baseline_in(alloc, doc.value(), name)
}

/// What the baseline asks for of a port; `None` exactly where it has no entry of the port. Takes no
/// memory, and looks at few of the entries.
pub fn baseline_of<'a>(baseline: &'a Baseline, port: &PortName) -> Option<&'a Ask>
    ensures { option_map (λ ask. ask_view ask.now) result ≡ ask_for port.now baseline.now }
{
    let entries = baseline.entries.as_slice();
    match entries.binary_search_by(|entry| entry.port.cmp(port)) {
        Ok(place) => Some(&entries[place].ask),
        Err(_) => None,
    }
}

/// A baseline asks for something of a port exactly where an entry of the port says so.
pub fn baseline_rule()
    ensures found { (entries : List plain.Entry) (entry : plain.Entry) → IsInOrder entries
        → Contains entries entry → ask_for entry.port entries ≡ Some entry.ask }
    ensures only { (entries : List plain.Entry) (port : List ℕ) (ask : plain_version.Ask)
        → ask_for port entries ≡ Some ask → Contains entries (record { port = port; ask = ask }) }
{}
