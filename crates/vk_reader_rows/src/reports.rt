//! Reports.

use vk_base::Unread;
use vk_model::Outcome;
use vk_report::report_bytes;
use vk_report_reader::{ReportFault, read_report};
use vk_row_text::{Reply, bytes_of};

fn tell_outcome(outcome: &Outcome, reply: &mut Reply) {
    match report_bytes(reply.alloc(), outcome) {
        Ok(report) => reply.push_token(report.as_bytes()),
        Err(memory) => reply.lack(memory),
    }
}

fn tell_report(bytes: &[u8], reply: &mut Reply) {
    if bytes.len() > 65_535 {
        return reply.refuse();
    }
    match read_report(reply.alloc(), bytes) {
        Ok(outcome) => tell_outcome(&outcome, reply),
        Err(Unread::Fault(ReportFault::Line { n })) => {
            reply.push("line:");
            reply.push_number(u64::from(n));
        }
        Err(Unread::Memory(memory)) => reply.lack(memory),
    }
}

/// `report read TEXT`: the token of the report of the outcome that is read, or `line:N`.
pub fn answer(rest: &str, reply: &mut Reply) {
    let bytes = bytes_of(reply.alloc(), rest);
    if let Some(bytes) = reply.needed(bytes) {
        tell_report(bytes.as_slice(), reply);
    }
}
