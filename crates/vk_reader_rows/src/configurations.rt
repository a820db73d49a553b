//! Configurations, from their file or from a root manifest, and which registry serves a port.

use crate::names::port_of;
use crate::shows::{Show, refused, tell, tell_or_none, tell_reads};
use vk_base::PortName;
use vk_config::{Config, Embedded, embedded, read_config, registry_of};
use vk_row_text::{Reply, cut};

/// What is asked of configurations.
#[derive(Clone, Copy)]
pub enum Question {
    Read,
    Sizes,
    Embedded,
    Serves,
    EmbeddedServes,
}

impl Show for Embedded {
    fn show(&self, reply: &mut Reply) {
        reply.push(match self {
            Embedded::Nothing => "nothing",
            Embedded::One(_) => "one",
            Embedded::Two => "two",
        });
    }
}

fn tell_sizes(config: &Config, reply: &mut Reply) {
    reply.push("registries ");
    reply.push_number(config.registries.len() as u64);
    reply.push(", overlay-ports ");
    reply.push_number(config.overlay_ports.len() as u64);
    reply.push(", overlay-triplets ");
    reply.push_number(config.overlay_triplets.len() as u64);
}

fn sizes(rest: &str, reply: &mut Reply) {
    let bytes = reply.bytes(rest);
    match read_config(reply.alloc(), bytes.as_slice()) {
        Ok(config) => tell_sizes(&config, reply),
        Err(stop) => refused(stop, reply),
    }
}

fn reads(rest: &str, reply: &mut Reply) {
    let bytes = reply.bytes(rest);
    tell_reads(read_config(reply.alloc(), bytes.as_slice()), reply);
}

fn in_manifest(rest: &str, reply: &mut Reply) {
    let bytes = reply.bytes(rest);
    tell(embedded(reply.alloc(), bytes.as_slice()), reply);
}

fn tell_server(config: &Config, port: &PortName, reply: &mut Reply) {
    tell_or_none(registry_of(config, port).map(|place| place as u64), reply);
}

fn serves(port: &PortName, bytes: &[u8], reply: &mut Reply) {
    match read_config(reply.alloc(), bytes) {
        Ok(config) => tell_server(&config, port, reply),
        Err(stop) => refused(stop, reply),
    }
}

fn tell_embedded(found: &Embedded, port: &PortName, reply: &mut Reply) {
    match found {
        Embedded::One(config) => tell_server(config, port, reply),
        _ => found.show(reply),
    }
}

fn embedded_serves(port: &PortName, bytes: &[u8], reply: &mut Reply) {
    match embedded(reply.alloc(), bytes) {
        Ok(found) => tell_embedded(&found, port, reply),
        Err(stop) => refused(stop, reply),
    }
}

fn of_port(question: Question, rest: &str, reply: &mut Reply) {
    let (port, rest) = cut(rest);
    let bytes = reply.bytes(rest);
    let Some(port) = port_of(port, reply) else {
        return;
    };
    match question {
        Question::Serves => serves(&port, bytes.as_slice(), reply),
        _ => embedded_serves(&port, bytes.as_slice(), reply),
    }
}

/// - `read FILE`: whether it reads, or the fault; `sizes FILE`: how long its lists are;
/// - `embedded FILE`: whether a root manifest has a configuration, or two, or the fault of its one;
/// - `serves PORT FILE`, `embedded-serves PORT FILE`: the place of the registry that serves the
///   port, counted from 0, where the default one comes last; or `none`.
pub fn answer(question: Question, rest: &str, reply: &mut Reply) {
    match question {
        Question::Read => reads(rest, reply),
        Question::Sizes => sizes(rest, reply),
        Question::Embedded => in_manifest(rest, reply),
        _ => of_port(question, rest, reply),
    }
}
