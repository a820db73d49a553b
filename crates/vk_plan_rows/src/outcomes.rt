//! What a project comes to over a catalogue.
ghost use Rattle.std.specs.Prelude.{◌≡◌, ◌<◌};

use crate::closings::tell_faults;
use std::alloc::Global;
use std::marker::Brand;
use std::sync::ledger::{Blank, Ledger};
use vk_base::{List, Steps, Stop};
use vk_catalogue::MemCatalogue;
use vk_close::CloseFault;
use vk_model::{Item, Outcome, Plan, Setting};
use vk_resolve::resolve;
use vk_row_text::Reply;

fn resolved_by<L: Ledger>(
    alloc: Global,
    pages: &mut MemCatalogue,
    setting: &Setting,
    blank: Blank,
) -> Result<Outcome, Stop<CloseFault>>
    requires name { blank.name ≡ L.name }
    requires parts { blank.parts ≡ L.parts }
    requires some { 0 < blank.parts }
{
    let mut steps = Steps::<L>::new(blank);
    resolve(alloc, pages, setting, &mut steps)
}

/// What a project comes to.
pub fn resolved(
    alloc: Global,
    pages: &mut MemCatalogue,
    setting: &Setting,
) -> Result<Outcome, Stop<CloseFault>> {
    resolved_by::<Brand>(alloc, pages, setting, Blank::new(1))
}

fn tell_needs(needs: &List<u32>, reply: &mut Reply) {
    if needs.is_empty() {
        return;
    }
    reply.push(" after");
    for need in needs.iter() {
        reply.push(" ");
        reply.push_number(u64::from(*need) + 1);
    }
}

fn tell_item(item: &Item, reply: &mut Reply) {
    reply.push_printed(item);
    tell_needs(&item.needs, reply);
}

fn tell_items(plan: &Plan, reply: &mut Reply) {
    reply.push("plan ");
    reply.push_number(plan.items.len() as u64);
    for (n, item) in plan.items.iter().enumerate() {
        reply.push("\n");
        reply.push_number(n as u64 + 1);
        reply.push(" ");
        tell_item(item, reply);
    }
}

fn tell_outcome(outcome: &Outcome, reply: &mut Reply) {
    match outcome {
        Outcome::Planned(plan, _) => tell_items(plan, reply),
        Outcome::Refused(faults, _) => tell_faults(faults, reply),
        Outcome::Early(_) => reply.push("early"),
    }
}

/// `plan`: each item of the plan, numbered as in the report, with the numbers of those that it
/// depends on behind `after`; or the lines of the phase that refuses; `facts N` where the project
/// requires more than may be, `failed` where the catalogue failed.
pub fn tell_plan(pages: &mut MemCatalogue, setting: &Setting, reply: &mut Reply) {
    match resolved(reply.alloc(), pages, setting) {
        Ok(outcome) => {
            tell_outcome(&outcome, reply);
            drop(outcome);
        }
        Err(Stop::Fault(CloseFault::Facts(most))) => {
            reply.push("facts ");
            reply.push_number(u64::from(most));
        }
        Err(Stop::Failed) => reply.push("failed"),
        Err(Stop::Memory(memory)) => reply.lack(memory),
    }
}
