//! What a project requires over a catalogue, and which instances are off.
ghost use Rattle.std.specs.Prelude.{◌≡◌, ◌<◌};

use std::alloc::Global;
use std::marker::Brand;
use std::sync::ledger::{Blank, Ledger};
use vk_base::{Instance, List, Memory, Steps, Stop};
use vk_catalogue::MemCatalogue;
use vk_close::{CloseFault, close};
use vk_model::lines::{InstanceTokens, fault_line};
use vk_model::{Closure, Fault, Reason, Setting};
use vk_root::off_list;
use vk_row_text::Reply;

fn closed_by<L: Ledger>(
    alloc: Global,
    pages: &mut MemCatalogue,
    setting: &Setting,
    blank: Blank,
) -> Result<Closure, Stop<CloseFault>>
    requires name { blank.name ≡ L.name }
    requires parts { blank.parts ≡ L.parts }
    requires some { 0 < blank.parts }
{
    let mut steps = Steps::<L>::new(blank);
    close(alloc, pages, setting, &mut steps)
}

/// What a project requires.
pub fn closed(
    alloc: Global,
    pages: &mut MemCatalogue,
    setting: &Setting,
) -> Result<Closure, Stop<CloseFault>> {
    closed_by::<Brand>(alloc, pages, setting, Blank::new(1))
}

/// How many fault lines there are, and each on a line.
pub fn tell_faults(faults: &List<Fault>, reply: &mut Reply) {
    reply.push("faults ");
    reply.push_number(faults.len() as u64);
    for fault in faults.iter() {
        reply.push("\n");
        let line = fault_line(reply.alloc(), fault);
        reply.push_made(line);
    }
}

fn tell_reasons(reasons: &List<Reason>, reply: &mut Reply) {
    reply.push("\nreasons ");
    reply.push_number(reasons.len() as u64);
    for (n, reason) in reasons.iter().enumerate() {
        reply.push("\n");
        reply.push_number(n as u64 + 1);
        reply.push(" ");
        reply.push_printed(reason);
    }
}

/// `close`: the faults of the first phase, and all that the project requires, line by line;
/// `facts N` where that is more than may be, `failed` where the catalogue failed.
pub fn tell_closure(pages: &mut MemCatalogue, setting: &Setting, reply: &mut Reply) {
    match closed(reply.alloc(), pages, setting) {
        Ok(closure) => {
            tell_faults(&closure.faults, reply);
            tell_reasons(&closure.reasons, reply);
        }
        Err(Stop::Fault(CloseFault::Facts(most))) => {
            reply.push("facts ");
            reply.push_number(u64::from(most));
        }
        Err(Stop::Failed) => reply.push("failed"),
        Err(Stop::Memory(memory)) => reply.lack(memory),
    }
}

/// The instances that are off.
pub fn off_of(alloc: Global, setting: &Setting) -> Result<List<Instance>, Memory> {
    off_list(
        alloc,
        &setting.root,
        &setting.target,
        &setting.host,
        &setting.features,
        setting.defaults,
    )
}

/// `off`: the instances that are off, each on a line, or `none`.
pub fn tell_off(off: &List<Instance>, reply: &mut Reply) {
    for instance in off.iter() {
        if !reply.is_empty() {
            reply.push("\n");
        }
        reply.push_printed(&InstanceTokens(instance));
    }
    if reply.is_empty() {
        reply.push("none");
    }
}
