//! The sheet: each line of the standard input is told again on the standard output, with the
//! answer, and marked where that isn't the one that stands beside the question.
//!
//! A row is a question, or a question and ` => ` and its answer. An answer of several lines stands
//! below its question, each line behind four blanks. An empty line asks nothing.

use crate::replies::Reply;
use std::alloc::{AllocError, Global};
use std::io;
use vk_base::Text;

/// What answers rows, and keeps what they did.
pub trait Answering {
    /// Puts the answer to a question into the reply.
    fn answer(&mut self, question: &str, reply: &mut Reply);
}

const MARGIN: &str = "    ";

// What was told of the last question, and which lines below it say what is wanted.
#[derive(Drop)]
struct Sheet {
    is_open: bool,
    told: Text,
    wanted: Text,
    rows: u64,
    differ: u64,
}

// Puts a line at the end of lines.
fn push_line(lines: &mut Text, line: &str) -> Result<(), AllocError> {
    if !lines.is_empty() {
        lines.push_str("\n")?;
    }
    lines.push_str(line)
}

fn print_lines<R: Print>(rt: &R, lines: &Text) -> io::Result<()> {
    for line in lines.as_str().split('\n') {
        println!(rt; "{MARGIN}{line}")?;
    }
    Ok(())
}

// What is told of a question, or nothing where nothing is to be told.
fn told_of<A: Answering>(
    alloc: Global,
    rows: &mut A,
    question: &str,
) -> Result<Option<Text>, AllocError> {
    let mut reply = Reply::new(alloc);
    rows.answer(question, &mut reply);
    reply.end()
}

// A row's question, and what stands behind ` => `.
fn parts_of(row: &str) -> (&str, Option<&str>) {
    match row.split_once(" => ") {
        Some((question, wanted)) => (question, Some(wanted)),
        None => (row, None),
    }
}

impl Sheet {
    fn new(alloc: Global) -> Sheet {
        Sheet {
            is_open: false,
            told: Text::new(alloc),
            wanted: Text::new(alloc),
            rows: 0,
            differ: 0,
        }
    }

    fn count(&mut self, is_same: bool) {
        self.rows = self.rows.saturating_add(1);
        if !is_same {
            self.differ = self.differ.saturating_add(1);
        }
    }

    // Tells an answer beside its question.
    fn beside<R: Print>(
        &mut self,
        rt: &R,
        question: &str,
        told: &Text,
        wanted: &str,
    ) -> io::Result<()> {
        let is_same = told.is(wanted);
        self.count(is_same);
        if is_same {
            println!(rt; "{question} => {told}")
        } else {
            println!(rt; "DIFFERS: {question} => {told}, and not {wanted}")
        }
    }

    // Tells the answer of several lines that waited for those that are wanted.
    fn settle<R: Print>(&mut self, rt: &R) -> io::Result<()> {
        if !self.is_open {
            return Ok(());
        }
        self.is_open = false;
        print_lines(rt, &self.told)?;
        let is_same = self.told.is(self.wanted.as_str());
        self.count(is_same);
        if !is_same {
            println!(rt; "DIFFERS from")?;
            print_lines(rt, &self.wanted)?;
        }
        Ok(())
    }

    // Begins an answer of several lines.
    fn open(&mut self, alloc: Global, told: Text) {
        self.is_open = true;
        self.told = told;
        self.wanted = Text::new(alloc);
    }

    // Asks a question, and tells the answer or keeps it.
    fn ask<R: Print + AllocGlobal, A: Answering>(
        &mut self,
        rt: &R,
        rows: &mut A,
        row: &str,
    ) -> io::Result<()> {
        let (question, wanted) = parts_of(row);
        let told = told_of(rt.alloc(), rows, question)?;
        match (told, wanted) {
            (Some(told), Some(wanted)) => self.beside(rt, question, &told, wanted),
            (Some(told), None) => {
                self.open(rt.alloc(), told);
                println!(rt; "{row}")
            }
            (None, Some(wanted)) => self.beside(rt, question, &Text::new(rt.alloc()), wanted),
            (None, None) => println!(rt; "{row}"),
        }
    }

    // Takes the next line.
    fn take<R: Print + AllocGlobal, A: Answering>(
        &mut self,
        rt: &R,
        rows: &mut A,
        line: &str,
    ) -> io::Result<()> {
        if let Some(wanted) = line.strip_prefix(MARGIN) {
            push_line(&mut self.wanted, wanted)?;
            return Ok(());
        }
        self.settle(rt)?;
        if line.is_empty() {
            return println!(rt; "");
        }
        self.ask(rt, rows, line)
    }
}

/// Answers each row of the standard input, in order, and tells how many there were and of how many
/// the answer differs, which is answered too. It ends early where a line can't be read or told.
pub fn answer_rows<R: Input + Print + AllocGlobal, A: Answering>(
    rt: &R,
    rows: &mut A,
) -> io::Result<u64> {
    let mut sheet = Sheet::new(rt.alloc());
    for line in rt.lines(rt.alloc()) {
        let line = line?;
        sheet.take(rt, rows, line.as_str())?;
    }
    sheet.settle(rt)?;
    println!(rt; "{} rows, {} differ", sheet.rows, sheet.differ)?;
    Ok(sheet.differ)
}
