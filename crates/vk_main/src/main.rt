//! The program: makes the words, the tree over the host's files and the two sinks over its
//! standard streams, calls `run`, and ends with its status.
#![tactic(auto)]

ghost use Rattle.std.specs.Prelude.{◌<◌, ◌^◌, length, IfOk};

use std::alloc::Global;
use std::io::ErrorKind;
use std::process::ExitCode;
use std::{env, mem};
use vk_app::{Ran, run};
use vk_base::{List, Memory, Text, Word};
use vk_real::{FileTree, OutSink};
use vk_tree::send;

// The one word that isn't text, in place of words that can't be had.
fn not_text(alloc: Global) -> Result<List<Word>, Memory>
    ensures { IfOk result (λ words. length words < 2 ^ 32) }
{
    let mut words = List::new(alloc);
    words.push(Word::NotText)?;
    Ok(words)
}

fn all_words(alloc: Global, args: env::Args) -> Result<List<Word>, Memory> {
    let mut words = List::new(alloc);
    for arg in args.skip(1) {
        words.push(Word::Text(Text::from_string(arg)))?;
    }
    Ok(words)
}

// The words after the program's name.
fn words_of(rt: &HostRuntime) -> Result<List<Word>, Memory>
    ensures { IfOk result (λ words. length words < 2 ^ 32) }
{
    let words = match env::args(rt) {
        Ok(args) => all_words(rt.alloc(), args)?,
        Err(e) => {
            if e.kind() == ErrorKind::OutOfMemory {
                return Err(Memory::without_allocation());
            }
            return not_text(rt.alloc());
        }
    };
    if words.len() >= 1 << 32 {
        return not_text(rt.alloc());
    }
    Ok(words)
}

// Takes a large block of memory and gives it back at once. The C library's allocator takes it as a
// sign that large blocks come and go, and from then on keeps what is freed for the next one, where
// it would give pages back and take new ones (mallopt(3), M_MMAP_THRESHOLD). Where there is no such
// block, the program runs as well, and slower.
fn keep_freed(alloc: Global) {
    let _ = Vec::<u8>::with_capacity(alloc, 16 << 20);
}

fn main(rt: HostRuntime) -> ExitCode {
    let alloc = rt.alloc();
    keep_freed(alloc);
    let mut out = OutSink::new(rt.stdout());
    let mut err = OutSink::new(rt.stderr());
    match words_of(&rt) {
        Ok(words) => {
            let Ran { status, spent, .. } = run(
                alloc,
                &words,
                FileTree::new(rt),
                &mut out,
                &mut err,
            );
            mem::forget(spent);
            ExitCode::from(status)
        }
        Err(_) => match send(&mut err, b"memory\n") {
            Ok(()) => ExitCode::from(3),
            Err(_) => ExitCode::from(5),
        },
    }
}
