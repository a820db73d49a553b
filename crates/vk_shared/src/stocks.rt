//! The packages that were made so far.
ghost use Rattle.std.specs.Prelude.{◌≡◌, ◌≤◌, ◌<◌, OnOk, Some, length, map, slice_get};
ghost use Rattle.vk_entry.specs.PackageViews.{file_view};
ghost use Rattle.vk_make.specs.Makes.{none_yet, with_item};
ghost use Rattle.vk_shared.specs.Stocks.{GrowsTo, made_view, room_for};

use std::alloc::Global;
use std::marker::Model;
use vk_base::{List, Memory};
use vk_entry::{Package, PackageFile};
use vk_make::{MakeItems, Mark};

// A package that was made, and how.
#[derive(Drop)]
pub(crate) struct MadePackage {
    pub(crate) mark: Mark,
    pub(crate) built: Package,
}

// The packages so far, how many they are, and how many bytes more there may be.
#[derive(Drop)]
pub(crate) struct Stock {
    items: MakeItems,
    place: u32,
    room: u64,
}

impl Model for Stock {
    ghost use Rattle.std.specs.Prelude.{◌≡◌, length};
    ghost use Rattle.vk_make.specs.Makes.{Have};

    ghost Value = { Have };

    ghost view = { λ s. record { items = s.items; room = s.room } };

    ghost invariant = { λ s. s.place ≡ length s.items.packages };
}

fn size_of(file: &PackageFile) -> u64
    ensures { result ≡ length file.now.bytes }
{
    file.bytes.len() as u64
}

/// How many bytes of so many are left behind these files; none where they have more.
pub(crate) fn room_left(files: &[PackageFile], room: u64) -> Option<u64>
    ensures { result ≡ room_for (map file_view files.now) room }
{
    let mut left = room;
    for file in files {
        let size = size_of(file);
        if size > left {
            return None;
        }
        left -= size;
    }
    Some(left)
}

impl Stock {
    // Nothing yet, with so many bytes to have.
    pub(crate) fn new(alloc: Global, room: u64) -> Stock
        ensures { result ≡ none_yet room }
    {
        Stock {
            items: MakeItems {
                made: List::new(alloc),
                packages: List::new(alloc),
            },
            place: 0,
            room,
        }
    }

    // How many there are.
    pub(crate) fn place(&self) -> u32
        ensures { result ≡ length self.now.items.packages }
    {
        self.place
    }

    // How many bytes more there may be.
    pub(crate) fn room(&self) -> u64
        ensures { result ≡ self.now.room }
    {
        self.room
    }

    // One of them.
    pub(crate) fn get(&self, item: u32) -> &Package
        requires { item < length self.now.items.packages }
        ensures { Some result.now ≡ slice_get self.now.items.packages item }
    {
        &self.items.packages.as_slice()[item as usize]
    }

    // One more.
    pub(crate) fn add(&mut self, item: MadePackage) -> Result<(), Memory>
        ensures more { OnOk result (self.new ≡ with_item self.old (made_view item)) }
        ensures grows { GrowsTo self.old.items.packages self.new.items.packages }
    {
        let Some(place) = self.place.checked_add(1) else {
            drop(item);
            return Err(Memory::without_allocation());
        };
        let room = room_left(item.built.files(), self.room).unwrap_or(0);
        self.items.made.push(item.mark)?;
        self.items.packages.push(item.built)?;
        self.place = place;
        self.room = room;
        Ok(())
    }

    // All of them.
    pub(crate) fn into_items(self) -> MakeItems
        ensures { result ≡ self.items }
    {
        self.items
    }
}
