//! A long chain of ports: each has two versions, of which the lower one is the baseline, and asks
//! for the next port at the higher one.

use crate::parts::{Making, NoLoad, Parts, Unmade};
use std::alloc::{AllocError, Global};
use std::rc::Rc;
use vk_base::{List, Memory, PortName, Unread};
use vk_catalogue::{MemCatalogue, Page, PageRow};
use vk_expr::Expr;
use vk_model::{Dependency, Given, Manifest, PortFeatures};
use vk_version::{Ask, Version};

fn dependency(alloc: Global, name: PortName, minimum: Option<Ask>) -> Dependency {
    Dependency {
        name,
        defaults: true,
        features: List::new(alloc),
        host: false,
        platform: Expr::Always,
        minimum,
    }
}

// The ask that means a version, which is let go.
fn ask_of(version: Version) -> Result<Ask, Memory> {
    let ask: Result<Ask, AllocError> = version.ask().clone();
    drop(version);
    Ok(ask?)
}

// A dependency on a port at its higher version.
fn at_higher(alloc: Global, parts: &Parts, number: u64) -> Result<Dependency, Unmade> {
    let minimum = ask_of(parts.higher()?)?;
    let name = parts.name(number)?;
    Ok(dependency(alloc, name, Some(minimum)))
}

/// A dependency on a port.
pub fn on(alloc: Global, parts: &Parts, number: u64) -> Result<Dependency, Unmade> {
    Ok(dependency(alloc, parts.name(number)?, None))
}

// What the higher version of a port asks for: the next port at its higher version.
fn higher_asks(
    alloc: Global,
    parts: &Parts,
    number: u64,
    size: u64,
) -> Result<List<Dependency>, Unmade> {
    let mut asked = List::with_capacity(alloc, 1)?;
    if number < size && number + 1 < size {
        asked.push(at_higher(alloc, parts, number + 1)?)?;
    }
    Ok(asked)
}

// What the lower version of a port asks for: the next port, and one twice as far.
fn lower_asks(
    alloc: Global,
    parts: &Parts,
    number: u64,
    size: u64,
) -> Result<List<Dependency>, Unmade> {
    let mut asked = List::with_capacity(alloc, 2)?;
    let next = number.saturating_add(1);
    let far = number.saturating_mul(2).saturating_add(1);
    if next < size {
        asked.push(on(alloc, parts, next)?)?;
    }
    if number > 0 && far < size {
        asked.push(on(alloc, parts, far)?)?;
    }
    Ok(asked)
}

/// A manifest without features.
pub fn manifest_of(
    alloc: Global,
    name: Option<PortName>,
    version: Option<Version>,
    dependencies: List<Dependency>,
) -> Manifest {
    Manifest {
        name,
        version,
        supports: Expr::Always,
        dependencies,
        default_features: List::new(alloc),
        features: PortFeatures::none(alloc),
        overrides: List::new(alloc),
    }
}

/// A version of a port, with what its manifest asks for.
pub fn row_of(
    alloc: Global,
    name: PortName,
    version: Version,
    asked: List<Dependency>,
) -> Result<PageRow, Unmade> {
    match version.clone() {
        Ok(own) => row_with(
            alloc,
            version,
            manifest_of(alloc, Some(name), Some(own), asked),
        ),
        Err(lack) => {
            drop(name);
            drop(version);
            drop(asked);
            Err(Unread::from(lack))
        }
    }
}

fn shared(alloc: Global, manifest: Manifest) -> Result<Rc<Manifest>, Memory> {
    Ok(Rc::new(alloc, manifest)?)
}

fn row_with(alloc: Global, version: Version, manifest: Manifest) -> Result<PageRow, Unmade> {
    match shared(alloc, manifest) {
        Ok(manifest) => Ok(PageRow {
            version,
            manifest: Ok(manifest),
        }),
        Err(memory) => {
            drop(version);
            Err(Unread::Memory(memory))
        }
    }
}

fn lower_row(alloc: Global, parts: &Parts, number: u64, size: u64) -> Result<PageRow, Unmade> {
    let asked = lower_asks(alloc, parts, number, size)?;
    let name = parts.name(number)?;
    row_of(alloc, name, parts.lower()?, asked)
}

fn higher_row(alloc: Global, parts: &Parts, number: u64, size: u64) -> Result<PageRow, Unmade> {
    let asked = higher_asks(alloc, parts, number, size)?;
    let name = parts.name(number)?;
    row_of(alloc, name, parts.higher()?, asked)
}

fn rows_of(alloc: Global, parts: &Parts, number: u64, size: u64) -> Result<List<PageRow>, Unmade> {
    let mut rows = List::with_capacity(alloc, 2)?;
    rows.push(lower_row(alloc, parts, number, size)?)?;
    rows.push(higher_row(alloc, parts, number, size)?)?;
    Ok(rows)
}

/// The page of a port with these versions, whose baseline is the lower one.
pub fn page_with(parts: &Parts, number: u64, rows: List<PageRow>) -> Result<Page, Unmade> {
    let ask = ask_of(parts.lower()?)?;
    let port = parts.name(number)?;
    let given = Ok(Given::Baseline(ask));
    Ok(Page { port, given, rows })
}

fn page_of(alloc: Global, parts: &Parts, number: u64, size: u64) -> Result<Page, Unmade> {
    let rows = rows_of(alloc, parts, number, size)?;
    page_with(parts, number, rows)
}

/// Puts a page into a catalogue.
pub fn put(pages: &mut MemCatalogue, page: Page) -> Result<(), Unmade> {
    match pages.fits(&page) {
        Ok(true) => pages.put(page).map_err(Unread::Memory),
        Ok(false) => {
            drop(page);
            Err(Unread::Fault(NoLoad))
        }
        Err(memory) => {
            drop(page);
            Err(Unread::Memory(memory))
        }
    }
}

/// A catalogue, if what was to be put into it was put.
pub fn if_put(pages: MemCatalogue, put: Result<(), Unmade>) -> Result<MemCatalogue, Unmade> {
    match put {
        Ok(()) => Ok(pages),
        Err(unmade) => {
            drop(pages);
            Err(unmade)
        }
    }
}

fn put_all(
    alloc: Global,
    parts: &Parts,
    size: u64,
    pages: &mut MemCatalogue,
) -> Result<(), Unmade> {
    for number in 0..size {
        put(pages, page_of(alloc, parts, number, size)?)?;
    }
    Ok(())
}

fn put_chain(
    alloc: Global,
    making: Making,
    size: u64,
    pages: &mut MemCatalogue,
) -> Result<(), Unmade> {
    let parts = Parts::of(alloc, making, 0, size)?;
    let put = put_all(alloc, &parts, size, pages);
    drop(parts);
    put
}

/// The catalogue of a chain of so many ports.
pub fn chain(alloc: Global, making: Making, size: u32) -> Result<MemCatalogue, Unmade> {
    let mut pages = MemCatalogue::new(alloc)?;
    let put = put_chain(alloc, making, u64::from(size), &mut pages);
    if_put(pages, put)
}

/// A root that has one dependency.
pub fn root_with(alloc: Global, dependency: Dependency) -> Result<Manifest, Unmade> {
    let mut asked = List::new(alloc);
    asked.push(dependency)?;
    Ok(manifest_of(alloc, None, None, asked))
}

/// A root that asks for the first port of a chain at its higher version.
pub fn chain_root(alloc: Global) -> Result<Manifest, Unmade> {
    let parts = Parts::of(alloc, Making::Once, 0, 1)?;
    let first = at_higher(alloc, &parts, 0);
    drop(parts);
    root_with(alloc, first?)
}
