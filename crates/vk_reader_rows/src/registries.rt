//! The files of registries: baselines, and the versions of a port, which are a table.

use crate::names::port_of;
use crate::shows::{Show, refused, tell, tell_or_none};
use vk_base::{Memory, PortName, SharedText, Unread};
use vk_json::FileFault;
use vk_registry::{Baseline, Table, baseline_of, find, read_baseline, read_table};
use vk_row_text::{Reply, cut};
use vk_version::Ask;

/// What is asked of the files of registries.
#[derive(Clone, Copy)]
pub enum Question {
    Baseline,
    Entry,
    Table,
    Find,
}

impl Show for Baseline {
    fn show(&self, reply: &mut Reply) {
        reply.push("baseline");
        for entry in self.entries() {
            reply.push(" ");
            entry.port.show(reply);
            reply.push("=");
            reply.push_ask(&entry.ask);
        }
    }
}

impl Show for Table {
    fn show(&self, reply: &mut Reply) {
        reply.push("table");
        for row in self.rows() {
            reply.push(" ");
            reply.push_ask(row.version.ask());
            reply.push("=");
            reply.push_path(&row.path);
        }
    }
}

fn baseline_in(name: &str, rest: &str, reply: &mut Reply) -> Result<Baseline, Unread<FileFault>> {
    let name = reply.text(name);
    let bytes = reply.bytes(rest);
    read_baseline(reply.alloc(), bytes.as_slice(), name.as_str())
}

fn baseline(rest: &str, reply: &mut Reply) {
    let (name, rest) = cut(rest);
    let read = baseline_in(name, rest, reply);
    tell(read, reply);
}

fn tell_entry(baseline: &Baseline, port: &PortName, reply: &mut Reply) {
    match baseline_of(baseline, port) {
        Some(ask) => reply.push_ask(ask),
        None => reply.push("none"),
    }
}

fn entry_of(name: &str, port: &PortName, rest: &str, reply: &mut Reply) {
    match baseline_in(name, rest, reply) {
        Ok(baseline) => tell_entry(&baseline, port, reply),
        Err(stop) => refused(stop, reply),
    }
}

fn entry(rest: &str, reply: &mut Reply) {
    let (name, rest) = cut(rest);
    let (port, rest) = cut(rest);
    if let Some(port) = port_of(port, reply) {
        entry_of(name, &port, rest, reply);
    }
}

fn table(rest: &str, reply: &mut Reply) {
    let bytes = reply.bytes(rest);
    tell(read_table(reply.alloc(), bytes.as_slice()), reply);
}

fn ask_of(text: &str, number: &str, reply: &mut Reply) -> Result<Ask, Memory> {
    let port = reply.number(number);
    let text = reply.text(text);
    let text = SharedText::from_str(reply.alloc(), text.as_str())?;
    Ok(Ask { text, port })
}

fn found(ask: &Ask, bytes: &[u8], reply: &mut Reply) {
    match read_table(reply.alloc(), bytes) {
        Ok(table) => tell_or_none(find(&table, ask).map(|place| place as u64), reply),
        Err(stop) => refused(stop, reply),
    }
}

fn find_in(rest: &str, reply: &mut Reply) {
    let (text, rest) = cut(rest);
    let (number, rest) = cut(rest);
    let bytes = reply.bytes(rest);
    match ask_of(text, number, reply) {
        Ok(ask) => found(&ask, bytes.as_slice(), reply),
        Err(memory) => reply.lack(memory),
    }
}

/// - `baseline read NAME FILE`: the baseline of this name, or the fault;
/// - `baseline entry NAME PORT FILE`: what it says of a port;
/// - `table read FILE`: the versions of a port, each with its folder, or the fault;
/// - `table find TEXT N FILE`: the place of the version with this text and port-version, or `none`.
pub fn answer(question: Question, rest: &str, reply: &mut Reply) {
    match question {
        Question::Baseline => baseline(rest, reply),
        Question::Entry => entry(rest, reply),
        Question::Table => table(rest, reply),
        Question::Find => find_in(rest, reply),
    }
}
