//! A catalogue in memory, and the pages that rows put.

use crate::asks::ask;
use crate::projects::{ask_of, port_of, version_by};
use crate::workspaces::{done, numbers_of};
use std::alloc::Global;
use std::rc::Rc;
use vk_base::{List, Memory, PortName, Text, TreePath, Unread};
use vk_catalogue::{Catalogue, MemCatalogue, Page, PageRow};
use vk_expr::Expr;
use vk_json::Why;
use vk_model::{Given, Manifest, PortFeatures, Wrong};
use vk_row_text::{NoRow, Reply, cut};
use vk_version::{Scheme, Version};

fn version_of(word: &str, reply: &mut Reply) -> Option<Version> {
    let ask = ask_of(word, reply)?;
    version_by(Scheme::Relaxed, &ask, reply)
}

// The manifest that has a name, and nothing else.
fn manifest_with(alloc: Global, name: PortName) -> Manifest {
    Manifest {
        name: Some(name),
        version: None,
        supports: Expr::Always,
        dependencies: List::new(alloc),
        default_features: List::new(alloc),
        features: PortFeatures::none(alloc),
        overrides: List::new(alloc),
    }
}

fn manifest_of(alloc: Global, name: &PortName) -> Result<Rc<Manifest>, Memory> {
    let name = name.clone()?;
    Ok(Rc::new(alloc, manifest_with(alloc, name))?)
}

fn bad_file(path: TreePath, place: Text) -> Wrong {
    Wrong::BadFile {
        path,
        place,
        why: Why::Missing,
    }
}

fn wrong_of(reply: &mut Reply) -> Wrong {
    let path = reply.path("a/vcpkg.json");
    let place = reply.text("/name");
    bad_file(path, place)
}

fn good_row(name: &PortName, word: &str, reply: &mut Reply) -> Option<PageRow> {
    let version = version_of(word, reply)?;
    match manifest_of(reply.alloc(), name) {
        Ok(manifest) => Some(PageRow {
            version,
            manifest: Ok(manifest),
        }),
        Err(memory) => {
            reply.lack(memory);
            None
        }
    }
}

fn bad_row(word: &str, reply: &mut Reply) -> Option<PageRow> {
    let version = version_of(word, reply)?;
    Some(PageRow {
        version,
        manifest: Err(wrong_of(reply)),
    })
}

// The row of a word: a version with a manifest of the port's name, or, behind `!`, one whose
// manifest lacks its name.
fn row_of(name: &PortName, word: &str, reply: &mut Reply) -> Option<PageRow> {
    match word.strip_prefix('!') {
        Some(word) => bad_row(word, reply),
        None => good_row(name, word, reply),
    }
}

fn push_rows(rows: &mut List<PageRow>, name: &PortName, words: &str, reply: &mut Reply) {
    for word in words.split(' ') {
        if let Some(row) = row_of(name, word, reply)
            && let Err(lack) = rows.push(row)
        {
            reply.lack(Memory::from(lack));
        }
    }
}

// What is given by an ask, or `-` for no baseline.
fn given_of(word: &str, reply: &mut Reply) -> Option<Result<Given, Wrong>> {
    if word == "-" {
        return Some(Err(Wrong::NoBaseline));
    }
    let ask = ask_of(word, reply)?;
    Some(Ok(Given::Baseline(ask)))
}

fn page_of(row: &str, reply: &mut Reply) -> Option<Page> {
    let (port, row) = cut(row);
    let (given, words) = cut(row);
    let port = port_of(port, reply)?;
    let given = given_of(given, reply)?;
    let mut rows = List::new(reply.alloc());
    push_rows(&mut rows, &port, words, reply);
    Some(Page { port, given, rows })
}

fn put_page(pages: &mut MemCatalogue, page: Page) -> Result<(), Unread<NoRow>> {
    match pages.fits(&page) {
        Ok(true) => pages.put(page).map_err(Unread::Memory),
        Ok(false) => {
            drop(page);
            Err(Unread::Fault(NoRow))
        }
        Err(memory) => {
            drop(page);
            Err(Unread::Memory(memory))
        }
    }
}

fn put(pages: &mut MemCatalogue, row: &str, reply: &mut Reply) {
    if let Some(page) = page_of(row, reply) {
        done(reply, put_page(pages, page));
    }
}

fn tell_fits(pages: &MemCatalogue, page: &Page, reply: &mut Reply) {
    match pages.fits(page) {
        Ok(fits) => reply.push_test(fits),
        Err(memory) => reply.lack(memory),
    }
}

fn fits(pages: &MemCatalogue, row: &str, reply: &mut Reply) {
    if let Some(page) = page_of(row, reply) {
        tell_fits(pages, &page, reply);
        drop(page);
    }
}

fn fail_at(alloc: Global, pages: &mut MemCatalogue, row: &str) -> Result<(), Unread<NoRow>> {
    let calls = numbers_of(alloc, row)?;
    Ok(pages.fail_at(calls.as_slice())?)
}

/// - `put PORT GIVEN VERSION ..`: puts a page, where one fits; `fits PORT GIVEN VERSION ..`:
///   whether one does;
/// - `fails N ..`: it fails at these calls, counted from 1; `faults`: how many calls failed;
/// - what every catalogue is asked.
pub fn answer(pages: &mut MemCatalogue, row: &str, reply: &mut Reply) {
    let (question, rest) = cut(row);
    match question {
        "put" => put(pages, rest, reply),
        "fits" => fits(pages, rest, reply),
        "fails" => {
            let set = fail_at(reply.alloc(), pages, rest);
            done(reply, set);
        }
        "faults" => reply.push_number(pages.faults()),
        _ => ask(pages, question, rest, reply),
    }
}
