//! The pages that rows make.

use crate::settings::manifest_of;
use std::alloc::Global;
use std::rc::Rc;
use vk_base::{List, Memory, PortName, Unread};
use vk_catalogue::{MemCatalogue, Page, PageRow};
use vk_json::Why;
use vk_model::{Field, Given, Manifest, Wrong};
use vk_row_text::{NoRow, Reply, cut};
use vk_version::{Ask, Scheme, Version, read, read_ask};

fn port_of(word: &str, reply: &mut Reply) -> Option<PortName> {
    let read = PortName::read(reply.alloc(), word);
    reply.needed(read)
}

fn ask_of(word: &str, reply: &mut Reply) -> Option<Ask> {
    let text = reply.text(word);
    let read = read_ask(reply.alloc(), text.as_str());
    reply.needed(read)
}

fn version_of(word: &str, reply: &mut Reply) -> Option<Version> {
    let ask = ask_of(word, reply)?;
    let read = read(reply.alloc(), Scheme::Relaxed, ask.text.as_str(), ask.port);
    reply.needed(read)
}

fn bad_file(row: &str, reply: &mut Reply) -> Option<Wrong> {
    let (path, row) = cut(row);
    let (place, word) = cut(row);
    let path = reply.path(path);
    let place = reply.text(place.trim_start_matches('-'));
    match Why::read(word) {
        Some(why) => Some(Wrong::BadFile { path, place, why }),
        None => None,
    }
}

fn field_of(word: &str) -> Option<Field> {
    match word {
        "name" => Some(Field::Name),
        "class" => Some(Field::Class),
        "text" => Some(Field::Text),
        "port-version" => Some(Field::Port),
        _ => None,
    }
}

fn disagrees(row: &str, reply: &mut Reply) -> Option<Wrong> {
    let (path, row) = cut(row);
    let (field, row) = cut(row);
    let (table, manifest) = cut(row);
    let field = field_of(field)?;
    let path = reply.path(path);
    let table = reply.text(table);
    let manifest = reply.text(manifest);
    Some(Wrong::Disagrees {
        path,
        field,
        table,
        manifest,
    })
}

// What is wrong, as its line says it.
fn wrong_of(row: &str, reply: &mut Reply) -> Option<Wrong> {
    let (word, rest) = cut(row);
    match word {
        "no-registry" => Some(Wrong::NoRegistry),
        "no-baseline" => Some(Wrong::NoBaseline),
        "bad-file" => bad_file(rest, reply),
        "disagrees" => disagrees(rest, reply),
        _ => None,
    }
}

fn given_of(row: &str, reply: &mut Reply) -> Option<Result<Given, Wrong>> {
    let (word, rest) = cut(row);
    match word {
        "baseline" => Some(Ok(Given::Baseline(ask_of(rest, reply)?))),
        "override" => Some(Ok(Given::Override(ask_of(rest, reply)?))),
        "overlay" => Some(Ok(Given::Overlay(version_of(rest, reply)?))),
        _ => Some(Err(wrong_of(row, reply)?)),
    }
}

/// `port NAME GIVEN`: the page of a port without versions, by `baseline ASK`, `override ASK`,
/// `overlay VERSION`, or what is wrong.
pub fn page_of(row: &str, reply: &mut Reply) -> Option<Page> {
    let (port, given) = cut(row);
    let port = port_of(port, reply)?;
    let given = given_of(given, reply)?;
    let rows = List::new(reply.alloc());
    Some(Page { port, given, rows })
}

fn shared(alloc: Global, manifest: Manifest) -> Result<Rc<Manifest>, Memory> {
    Ok(Rc::new(alloc, manifest)?)
}

fn own_version(manifest: &Manifest) -> Result<Version, Unread<NoRow>> {
    match &manifest.version {
        Some(version) => Ok(version.clone()?),
        None => Err(Unread::Fault(NoRow)),
    }
}

fn row_of(alloc: Global, version: Version, manifest: Manifest) -> Result<PageRow, Unread<NoRow>> {
    match shared(alloc, manifest) {
        Ok(manifest) => Ok(PageRow {
            version,
            manifest: Ok(manifest),
        }),
        Err(memory) => {
            drop(version);
            Err(Unread::Memory(memory))
        }
    }
}

fn row_with(alloc: Global, manifest: Manifest) -> Result<PageRow, Unread<NoRow>> {
    match own_version(&manifest) {
        Ok(version) => row_of(alloc, version, manifest),
        Err(unread) => {
            drop(manifest);
            Err(unread)
        }
    }
}

fn good_row(row: &str, reply: &mut Reply) -> Option<PageRow> {
    let manifest = manifest_of(row, false, reply)?;
    let row = row_with(reply.alloc(), manifest);
    reply.needed(row)
}

fn bad_row(row: &str, reply: &mut Reply) -> Option<PageRow> {
    let (version, wrong) = cut(row);
    let version = version_of(version, reply)?;
    let wrong = wrong_of(wrong, reply)?;
    Some(PageRow {
        version,
        manifest: Err(wrong),
    })
}

/// `at FILE`: the version of a port's manifest, with that manifest; `bad VERSION WRONG`: a version
/// whose manifest isn't as it has to be.
pub fn push_row(page: &mut Page, what: &str, row: &str, reply: &mut Reply) {
    let row = match what {
        "at" => good_row(row, reply),
        _ => bad_row(row, reply),
    };
    let Some(row) = row else {
        reply.refuse();
        return;
    };
    if let Err(lack) = page.rows.push(row) {
        reply.lack(Memory::from(lack));
    }
}

/// Puts a page into the catalogue. `NoRow` where it doesn't fit.
pub fn put_page(pages: &mut MemCatalogue, page: Page) -> Result<(), Unread<NoRow>> {
    match pages.fits(&page) {
        Ok(true) => pages.put(page).map_err(Unread::Memory),
        Ok(false) => {
            drop(page);
            Err(Unread::Fault(NoRow))
        }
        Err(memory) => {
            drop(page);
            Err(Unread::Memory(memory))
        }
    }
}
