//! What a sink in memory answers.

use crate::workspaces::{done, numbers_of};
use std::alloc::Global;
use vk_base::Unread;
use vk_row_text::{NoRow, Reply, cut};
use vk_tree::{MemSink, OutStop, Sink, send};

fn put(sink: &mut MemSink, row: &str, reply: &mut Reply) {
    let piece = reply.bytes(row);
    match sink.put(piece.as_slice()) {
        Ok(count) => reply.push_number(count as u64),
        Err(_) => reply.push("failed"),
    }
}

fn tell_sent(sent: Result<(), OutStop>, reply: &mut Reply) {
    match sent {
        Ok(()) => reply.push("sent"),
        Err(OutStop::Failed) => reply.push("failed"),
        Err(OutStop::Nothing { at }) => {
            reply.push("nothing from ");
            reply.push_number(at);
        }
    }
}

fn send_all(sink: &mut MemSink, row: &str, reply: &mut Reply) {
    let bytes = reply.bytes(row);
    tell_sent(send(sink, bytes.as_slice()), reply);
}

fn fail_at(alloc: Global, sink: &mut MemSink, row: &str) -> Result<(), Unread<NoRow>> {
    let calls = numbers_of(alloc, row)?;
    Ok(sink.fail_at(calls.as_slice())?)
}

fn take_nothing(sink: &mut MemSink, row: &str, reply: &mut Reply) {
    reply.silence();
    sink.take_nothing_from(reply.number(row));
}

fn renew(sink: &mut MemSink, row: &str, reply: &mut Reply) {
    reply.silence();
    let room = reply.number(row);
    match MemSink::new(reply.alloc(), room) {
        Ok(new) => *sink = new,
        Err(memory) => reply.lack(memory),
    }
}

/// - `new ROOM`: a new sink, that takes so many bytes;
/// - `fails N ..`: it fails at these calls, counted from 1;
/// - `nothing-from N`: it takes nothing from this call on;
/// - `put BYTES`: how many of them one call takes; `send BYTES`: whether all are taken;
/// - `taken`: what it took; `faults`: how many calls took nothing, or failed.
pub fn answer(sink: &mut MemSink, row: &str, reply: &mut Reply) {
    let (question, rest) = cut(row);
    match question {
        "new" => renew(sink, rest, reply),
        "fails" => {
            let set = fail_at(reply.alloc(), sink, rest);
            done(reply, set);
        }
        "nothing-from" => take_nothing(sink, rest, reply),
        "put" => put(sink, rest, reply),
        "send" => send_all(sink, rest, reply),
        "taken" => reply.push_token(sink.bytes()),
        "faults" => reply.push_number(sink.faults()),
        _ => reply.refuse(),
    }
}
