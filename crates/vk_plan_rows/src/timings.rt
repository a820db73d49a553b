//! How long closing and planning take over large projects. That goes to standard error, in
//! microseconds, so that what the program prints is always the same.

use crate::closings::closed;
use crate::loads::{Load, Shape, load_of};
use crate::outcomes::resolved;
use std::alloc::Global;
use std::io::{self, Eprint};
use std::rt::Clock;
use std::time::Instant;
use vk_base::Stop;
use vk_close::CloseFault;
use vk_model::{Closure, Outcome};
use vk_row_text::{Reply, cut};

// How many there are of what was made, and how many microseconds it took.
#[derive(Clone, Copy, Drop)]
struct Timed {
    count: usize,
    micros: u128,
}

fn facts_of(closure: &Result<Closure, Stop<CloseFault>>) -> Option<usize> {
    match closure {
        Ok(closure) => Some(closure.reasons.len()),
        Err(_) => None,
    }
}

// A refused project has none.
fn items_of(outcome: &Result<Outcome, Stop<CloseFault>>) -> Option<usize> {
    match outcome {
        Ok(Outcome::Planned(plan, _)) => Some(plan.items.len()),
        Ok(Outcome::Refused(_, _)) => Some(0),
        Ok(Outcome::Early(_)) | Err(_) => None,
    }
}

// Times the call alone: the answer is dropped when the time was taken.
fn measure_closing<R: Clock>(rt: &R, alloc: Global, load: &mut Load) -> io::Result<Option<Timed>> {
    let start = Instant::now(rt)?;
    let closure = closed(alloc, &mut load.pages, &load.setting);
    let end = Instant::now(rt);
    let facts = facts_of(&closure);
    drop(closure);
    let micros = end?.duration_since(start).as_micros();
    match facts {
        Some(count) => Ok(Some(Timed { count, micros })),
        None => Ok(None),
    }
}

fn measure_planning<R: Clock>(rt: &R, alloc: Global, load: &mut Load) -> io::Result<Option<Timed>> {
    let start = Instant::now(rt)?;
    let outcome = resolved(alloc, &mut load.pages, &load.setting);
    let end = Instant::now(rt);
    let items = items_of(&outcome);
    drop(outcome);
    let micros = end?.duration_since(start).as_micros();
    match items {
        Some(count) => Ok(Some(Timed { count, micros })),
        None => Ok(None),
    }
}

// A closing and a plan of one load.
#[derive(Clone, Copy, Drop)]
struct Both {
    closing: Timed,
    planning: Timed,
}

fn measure<R: Clock>(rt: &R, alloc: Global, load: &mut Load) -> io::Result<Option<Both>> {
    let Some(closing) = measure_closing(rt, alloc, load)? else {
        return Ok(None);
    };
    match measure_planning(rt, alloc, load)? {
        Some(planning) => Ok(Some(Both { closing, planning })),
        None => Ok(None),
    }
}

fn measure_made<R: Clock>(rt: &R, alloc: Global, mut load: Load) -> io::Result<Option<Both>> {
    let both = measure(rt, alloc, &mut load);
    drop(load);
    both
}

fn measure_at<R: Clock>(
    rt: &R,
    alloc: Global,
    shape: Shape,
    size: u32,
) -> io::Result<Option<Both>> {
    match load_of(alloc, shape, size) {
        Ok(load) => measure_made(rt, alloc, load),
        Err(_) => Ok(None),
    }
}

fn tell<R: Eprint + Clock>(rt: &R, row: &str, both: Both, reply: &mut Reply) {
    let (closing, planning) = (both.closing, both.planning);
    let told = eprintln!(rt;
        "{row}: closed {} us, planned {} us",
        closing.micros, planning.micros
    );
    if told.is_err() {
        reply.refuse();
    }
    reply.push_number(closing.count as u64);
    reply.push(" facts, ");
    reply.push_number(planning.count as u64);
    reply.push(" items");
}

fn shape_of(word: &str) -> Option<Shape> {
    match word {
        "chain" => Some(Shape::Chain),
        "shared" => Some(Shape::Shared),
        "side" => Some(Shape::Side),
        "ring" => Some(Shape::Ring),
        _ => None,
    }
}

/// `load SHAPE N`: how many facts and how many items a project of so many ports has, none where it
/// is refused; a shape is `chain`, `shared`, `side` or `ring`.
pub fn answer<R: Eprint + Clock>(rt: &R, row: &str, reply: &mut Reply) {
    let (shape, size) = cut(row);
    let size = reply.number(size);
    let Some(shape) = shape_of(shape) else {
        return reply.refuse();
    };
    match measure_at(rt, reply.alloc(), shape, size) {
        Ok(Some(both)) => tell(rt, row, both, reply),
        _ => reply.push("stopped"),
    }
}
