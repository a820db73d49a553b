//! Reports that are checked, and their reasons, which are a certificate or none.
ghost use Rattle.std.specs.Prelude.{◌≡◌, ◌<◌, ◌^◌, length};

use std::alloc::Global;
use std::marker::Brand;
use std::sync::ledger::{Blank, Ledger};
use vk_base::{List, Outage, Steps, Stop, Unread};
use vk_catalogue::MemCatalogue;
use vk_check::{Verdict, certify, check};
use vk_close::CloseFault;
use vk_model::{Outcome, Reason, Setting};
use vk_report_reader::{ReportFault, read_report};
use vk_row_text::Reply;

fn checked_by<L: Ledger>(
    alloc: Global,
    report: &[u8],
    pages: &mut MemCatalogue,
    setting: &Setting,
    blank: Blank,
) -> Result<Verdict, Stop<CloseFault>>
    requires short { length report.now < 2 ^ 32 }
    requires name { blank.name ≡ L.name }
    requires parts { blank.parts ≡ L.parts }
    requires some { 0 < blank.parts }
{
    let mut steps = Steps::<L>::new(blank);
    check(alloc, report, pages, setting, &mut steps)
}

fn checked(
    alloc: Global,
    report: &[u8],
    pages: &mut MemCatalogue,
    setting: &Setting,
) -> Result<Verdict, Stop<CloseFault>>
    requires { length report.now < 2 ^ 32 }
{
    checked_by::<Brand>(alloc, report, pages, setting, Blank::new(1))
}

fn tell_want(want: &Option<List<u8>>, reply: &mut Reply) {
    let Some(line) = want else {
        return reply.push("\nwant-nothing");
    };
    reply.push("\nwant ");
    match str::from_utf8(line.as_slice()) {
        Ok(text) => reply.push(text),
        Err(_) => reply.refuse(),
    }
}

fn tell_verdict(verdict: &Verdict, reply: &mut Reply) {
    match verdict {
        Verdict::Yes => reply.push("yes"),
        Verdict::No { line, want } => {
            reply.push("no ");
            reply.push_number(u64::from(*line));
            tell_want(want, reply);
        }
    }
}

/// `check REPORT`: `yes`, or the first line that differs and the wanted one; `facts N`
/// where the project requires more than may be, `failed` where the catalogue failed.
pub fn tell_check(report: &[u8], pages: &mut MemCatalogue, setting: &Setting, reply: &mut Reply) {
    if report.len() > 65_535 {
        return reply.refuse();
    }
    match checked(reply.alloc(), report, pages, setting) {
        Ok(verdict) => tell_verdict(&verdict, reply),
        Err(Stop::Fault(CloseFault::Facts(most))) => {
            reply.push("facts ");
            reply.push_number(u64::from(most));
        }
        Err(Stop::Failed) => reply.push("failed"),
        Err(Stop::Memory(memory)) => reply.lack(memory),
    }
}

fn certified_by<L: Ledger>(
    alloc: Global,
    reasons: &[Reason],
    pages: &mut MemCatalogue,
    setting: &Setting,
    blank: Blank,
) -> Result<bool, Outage>
    requires short { length reasons.now < 2 ^ 32 }
    requires name { blank.name ≡ L.name }
    requires parts { blank.parts ≡ L.parts }
    requires some { 0 < blank.parts }
{
    let mut steps = Steps::<L>::new(blank);
    certify(alloc, reasons, pages, setting, &mut steps)
}

fn certified(
    alloc: Global,
    reasons: &[Reason],
    pages: &mut MemCatalogue,
    setting: &Setting,
) -> Result<bool, Outage>
    requires { length reasons.now < 2 ^ 32 }
{
    certified_by::<Brand>(alloc, reasons, pages, setting, Blank::new(1))
}

fn tell_certified(
    reasons: &[Reason],
    pages: &mut MemCatalogue,
    setting: &Setting,
    reply: &mut Reply,
) {
    if reasons.len() > 65_535 {
        return reply.refuse();
    }
    match certified(reply.alloc(), reasons, pages, setting) {
        Ok(holds) => reply.push_test(holds),
        Err(Outage::Failed) => reply.push("failed"),
        Err(Outage::Memory(memory)) => reply.lack(memory),
    }
}

fn tell_reasons_of(
    outcome: &Outcome,
    pages: &mut MemCatalogue,
    setting: &Setting,
    reply: &mut Reply,
) {
    match outcome {
        Outcome::Planned(_, reasons) => tell_certified(reasons.as_slice(), pages, setting, reply),
        Outcome::Refused(_, reasons) => tell_certified(reasons.as_slice(), pages, setting, reply),
        Outcome::Early(_) => reply.push("early"),
    }
}

/// `certify REPORT`: whether the reasons of a report are a certificate; `line:N` where it is no
/// report, `failed` where the catalogue failed.
pub fn tell_certificate(
    report: &[u8],
    pages: &mut MemCatalogue,
    setting: &Setting,
    reply: &mut Reply,
) {
    if report.len() > 65_535 {
        return reply.refuse();
    }
    match read_report(reply.alloc(), report) {
        Ok(outcome) => tell_reasons_of(&outcome, pages, setting, reply),
        Err(Unread::Fault(ReportFault::Line { n })) => {
            reply.push("line:");
            reply.push_number(u64::from(n));
        }
        Err(Unread::Memory(memory)) => reply.lack(memory),
    }
}
