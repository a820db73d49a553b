//! A chain of ports that leads to two ports which need each other.

use crate::chains::{if_put, on, page_with, put, root_with, row_of};
use crate::parts::{Making, Parts, Unmade};
use std::alloc::Global;
use vk_base::List;
use vk_catalogue::{MemCatalogue, Page, PageRow};
use vk_model::Manifest;

// The number of the first port: all names have six digits, so the cycle comes last in their order.
const FIRST: u64 = 100_000;

// The port that one asks for: the next, and of the last two each the other.
fn next_of(number: u64, end: u64) -> u64 {
    if number > end {
        end
    } else {
        number.saturating_add(1)
    }
}

fn version_of(alloc: Global, parts: &Parts, number: u64, end: u64) -> Result<PageRow, Unmade> {
    let mut asked = List::with_capacity(alloc, 1)?;
    asked.push(on(alloc, parts, next_of(number, end))?)?;
    let name = parts.name(number)?;
    row_of(alloc, name, parts.lower()?, asked)
}

fn page_of(alloc: Global, parts: &Parts, number: u64, end: u64) -> Result<Page, Unmade> {
    let mut rows = List::with_capacity(alloc, 1)?;
    rows.push(version_of(alloc, parts, number, end)?)?;
    page_with(parts, number, rows)
}

fn put_all(alloc: Global, parts: &Parts, end: u64, pages: &mut MemCatalogue) -> Result<(), Unmade> {
    for number in FIRST..end.saturating_add(2) {
        put(pages, page_of(alloc, parts, number, end)?)?;
    }
    Ok(())
}

fn put_ring(alloc: Global, end: u64, pages: &mut MemCatalogue) -> Result<(), Unmade> {
    let parts = Parts::of(alloc, Making::Anew, FIRST, end.saturating_add(2))?;
    let put = put_all(alloc, &parts, end, pages);
    drop(parts);
    put
}

/// The catalogue of so many ports that lead to a cycle of two more.
pub fn ring(alloc: Global, size: u32) -> Result<MemCatalogue, Unmade> {
    let mut pages = MemCatalogue::new(alloc)?;
    let put = put_ring(alloc, u64::from(size).saturating_add(FIRST), &mut pages);
    if_put(pages, put)
}

/// A root that asks for the first of them.
pub fn ring_root(alloc: Global) -> Result<Manifest, Unmade> {
    let parts = Parts::of(alloc, Making::Once, FIRST, FIRST + 1)?;
    let first = on(alloc, &parts, FIRST);
    drop(parts);
    root_with(alloc, first?)
}
