//! Ports side by side: the root asks for each of them, and none asks for another.

use crate::chains::{if_put, manifest_of, on, page_with, put, row_of};
use crate::parts::{Making, Parts, Unmade};
use std::alloc::Global;
use vk_base::List;
use vk_catalogue::{MemCatalogue, Page, PageRow};
use vk_model::{Dependency, Manifest};

fn version_of(alloc: Global, parts: &Parts, number: u64) -> Result<PageRow, Unmade> {
    let name = parts.name(number)?;
    row_of(alloc, name, parts.lower()?, List::new(alloc))
}

fn page_of(alloc: Global, parts: &Parts, number: u64) -> Result<Page, Unmade> {
    let mut rows = List::with_capacity(alloc, 1)?;
    rows.push(version_of(alloc, parts, number)?)?;
    page_with(parts, number, rows)
}

fn put_all(
    alloc: Global,
    parts: &Parts,
    size: u32,
    pages: &mut MemCatalogue,
) -> Result<(), Unmade> {
    for number in 0..size {
        put(pages, page_of(alloc, parts, u64::from(number))?)?;
    }
    Ok(())
}

fn put_sides(alloc: Global, size: u32, pages: &mut MemCatalogue) -> Result<(), Unmade> {
    let parts = Parts::of(alloc, Making::Anew, 0, u64::from(size))?;
    let put = put_all(alloc, &parts, size, pages);
    drop(parts);
    put
}

/// The catalogue of so many ports side by side.
pub fn side_by_side(alloc: Global, size: u32) -> Result<MemCatalogue, Unmade> {
    let mut pages = MemCatalogue::new(alloc)?;
    let put = put_sides(alloc, size, &mut pages);
    if_put(pages, put)
}

fn asks_of_each(alloc: Global, parts: &Parts, size: u32) -> Result<List<Dependency>, Unmade> {
    let mut asked = List::new(alloc);
    for number in 0..size {
        asked.push(on(alloc, parts, u64::from(number))?)?;
    }
    Ok(asked)
}

/// A root that asks for each of them.
pub fn side_root(alloc: Global, size: u32) -> Result<Manifest, Unmade> {
    let parts = Parts::of(alloc, Making::Anew, 0, u64::from(size))?;
    let asked = asks_of_each(alloc, &parts, size);
    drop(parts);
    Ok(manifest_of(alloc, None, None, asked?))
}
