//! How stages, packages and ends are told.

use vk_base::{Limit, Stop};
use vk_entry::{Package, PackageFile};
use vk_look::Harm;
use vk_make::{MakeEnd, MakeItems, Mark};
use vk_row_text::Reply;
use vk_shared::{Making, Stage};

/// The word for a harm.
pub fn harm_word(harm: Harm) -> &'static str {
    match harm {
        Harm::Text => "text",
        Harm::Contents => "contents",
        Harm::Extra => "extra",
        Harm::Missing => "missing",
        Harm::Size => "size",
        Harm::Hash => "hash",
    }
}

fn tell_mark(mark: Mark, reply: &mut Reply) {
    match mark {
        Mark::Restored => reply.push("restored"),
        Mark::Built => reply.push("built"),
        Mark::Rebuilt(harm) => {
            reply.push("rebuilt ");
            reply.push(harm_word(harm));
        }
    }
}

fn tell_limit(limit: Limit, reply: &mut Reply) {
    match limit {
        Limit::Entries => reply.push("entries"),
        Limit::Files => reply.push("files"),
        Limit::Depth => reply.push("depth"),
        Limit::Tmp => reply.push("tmp"),
        Limit::Damaged => reply.push("damaged"),
        Limit::Bytes(most) => {
            reply.push("bytes ");
            reply.push_number(most);
        }
        Limit::Facts(_) => reply.refuse(),
    }
}

/// Tells a limit that was passed.
pub fn tell_over(limit: Limit, reply: &mut Reply) {
    reply.push("limit ");
    tell_limit(limit, reply);
}

fn tell_end(end: MakeEnd, reply: &mut Reply) {
    match end {
        MakeEnd::Collision { item } => {
            reply.push("collision ");
            reply.push_number(u64::from(item));
        }
        MakeEnd::Limit(limit) => tell_over(limit, reply),
        MakeEnd::Refused => reply.push("refused"),
    }
}

/// Tells why it came to an end before all packages were made.
pub fn tell_stop(stop: &Stop<MakeEnd>, reply: &mut Reply) {
    match stop {
        Stop::Fault(end) => tell_end(*end, reply),
        Stop::Failed => reply.push("failed"),
        Stop::Memory(_) => reply.push("memory"),
    }
}

fn tell_file(file: &PackageFile, reply: &mut Reply) {
    reply.push(" ");
    reply.push_path(&file.path);
    reply.push("=");
    reply.push_token(file.bytes.as_slice());
}

/// Tells the files of a package, each behind a blank.
pub fn tell_package(package: &Package, reply: &mut Reply) {
    for file in package.files() {
        tell_file(file, reply);
    }
}

fn tell_item(place: usize, items: &MakeItems, mark: Mark, reply: &mut Reply) {
    if place > 0 {
        reply.push(" and ");
    }
    tell_mark(mark, reply);
    if let Some(package) = items.packages.get(place) {
        tell_package(package, reply);
    }
}

/// Tells how each item was had, and its package.
pub fn tell_items(items: &MakeItems, reply: &mut Reply) {
    for (place, mark) in items.made.iter().enumerate() {
        tell_item(place, items, *mark, reply);
    }
    if items.made.is_empty() {
        reply.push("nothing");
    }
}

/// Tells what a making is to do next.
pub fn tell_stage(making: &Making, reply: &mut Reply) {
    match making.state() {
        Stage::Calls => reply.push("calls"),
        Stage::Done => reply.push("done"),
        Stage::Ended => reply.push("ended"),
        Stage::Builds(place) => {
            reply.push("builds ");
            reply.push_number(u64::from(place));
        }
    }
}
