//! The items of plans, and the packages that are supplied for them.

use std::alloc::Global;
use vk_base::{List, Memory, Text, TreePath};
use vk_digest::Digest;
use vk_entry::Package;
use vk_row_text::{Reply, cut};
use vk_shared::{Making, Stage, Task};

/// An item that plans may have.
#[derive(Drop)]
pub struct Item {
    /// What rows call it.
    pub name: Text,
    /// The digest that it has.
    pub digest: Digest,
    /// Its text.
    pub text: List<u8>,
    /// The folder of its port.
    pub folder: TreePath,
    /// What is supplied, a word for each file; or `refused`.
    words: Text,
}

fn copy(words: &str, reply: &mut Reply) -> Text {
    match Text::from_str(reply.alloc(), words) {
        Ok(words) => words,
        Err(lack) => {
            reply.lack(Memory::from(lack));
            Text::new(reply.alloc())
        }
    }
}

fn digest_of(word: &str, reply: &mut Reply) -> Digest {
    let text = reply.bytes(word);
    Digest::of(text.as_slice())
}

/// `NAME TEXT FOLDER WORD ..`: an item with a text and the folder of a port, and the files of its
/// package: `PATH=BYTES`; `PATH<FILE`, as a file of the port's folder; or `PATH@K:FILE`, as a file of
/// the package of the item with the place K. Where the text is `OTHER:TEXT`, the digest is that of
/// the other one.
pub fn item_of(row: &str, reply: &mut Reply) -> Item {
    let (name, row) = cut(row);
    let (text, row) = cut(row);
    let (folder, words) = cut(row);
    let (key, text) = text.split_once(':').unwrap_or((text, text));
    let digest = digest_of(key, reply);
    let text = reply.bytes(text);
    let name = reply.text(name);
    let folder = reply.path(folder);
    let words = copy(words, reply);
    Item {
        name,
        digest,
        text,
        folder,
        words,
    }
}

impl Item {
    /// What is to be made.
    pub fn task(&self) -> Result<Task, Memory> {
        Ok(Task {
            digest: self.digest,
            text: self.text.clone()?,
            folder: self.folder.clone()?,
        })
    }
}

fn put(package: &mut Package, path: &str, bytes: List<u8>, reply: &mut Reply) {
    let path = reply.path(path);
    match package.put(path, bytes) {
        Ok(true) => {}
        Ok(false) => reply.refuse(),
        Err(memory) => reply.lack(memory),
    }
}

// The bytes of a file that has to be there.
fn bytes_in(package: &Package, file: &str, reply: &mut Reply) -> List<u8> {
    let path = reply.path(file);
    let Some(bytes) = package.file(&path) else {
        reply.refuse();
        return List::new(reply.alloc());
    };
    match List::from_slice(reply.alloc(), bytes) {
        Ok(bytes) => bytes,
        Err(lack) => {
            reply.lack(Memory::from(lack));
            List::new(reply.alloc())
        }
    }
}

// The bytes of a file of the port's folder of the item that waits.
fn from_folder(making: &Making, file: &str, reply: &mut Reply) -> List<u8> {
    match making.state() {
        Stage::Builds(_) => bytes_in(making.folder(), file, reply),
        _ => {
            reply.refuse();
            List::new(reply.alloc())
        }
    }
}

// The bytes of a file of a package that was made before the item that waits.
fn from_made(making: &Making, file: &str, reply: &mut Reply) -> List<u8> {
    let (item, file) = file.split_once(':').unwrap_or(("", file));
    let item: u32 = reply.number(item);
    match making.state() {
        Stage::Builds(place) if item < place => bytes_in(making.made_package(item), file, reply),
        _ => {
            reply.refuse();
            List::new(reply.alloc())
        }
    }
}

fn put_other(package: &mut Package, making: &Making, word: &str, reply: &mut Reply) {
    if let Some((path, file)) = word.split_once('<') {
        let bytes = from_folder(making, file, reply);
        put(package, path, bytes, reply);
    } else if let Some((path, file)) = word.split_once('@') {
        let bytes = from_made(making, file, reply);
        put(package, path, bytes, reply);
    } else if !word.is_empty() {
        reply.refuse();
    }
}

fn put_word(package: &mut Package, making: &Making, word: &str, reply: &mut Reply) {
    match word.split_once('=') {
        Some((path, bytes)) => {
            let bytes = reply.bytes(bytes);
            put(package, path, bytes, reply);
        }
        None => put_other(package, making, word, reply),
    }
}

fn package_for(making: &Making, words: &str, reply: &mut Reply) -> Package {
    let mut package = Package::new(reply.alloc());
    for word in words.split(' ') {
        put_word(&mut package, making, word, reply);
    }
    package
}

/// Supplies the package of an item that waits, or refuses it.
pub fn supply(making: &mut Making, item: &Item, reply: &mut Reply) {
    let package = package_for(making, item.words.as_str(), reply);
    match making.state() {
        Stage::Builds(_) => making.supply(package),
        _ => reply.refuse(),
    }
}

/// Refuses the package of an item that waits.
pub fn refuse(making: &mut Making, reply: &mut Reply) {
    match making.state() {
        Stage::Builds(_) => making.refuse(),
        _ => reply.refuse(),
    }
}

/// Does what is meant for an item that waits.
pub fn supply_or_refuse(making: &mut Making, item: &Item, reply: &mut Reply) {
    if item.words.is("refused") {
        refuse(making, reply);
    } else {
        supply(making, item, reply);
    }
}

fn put_meant(package: &mut Package, word: &str, reply: &mut Reply) {
    match word.split_once('=') {
        Some((path, bytes)) => {
            let bytes = reply.bytes(bytes);
            put(package, path, bytes, reply);
        }
        None if word.is_empty() => {}
        None => reply.refuse(),
    }
}

/// The package that is meant for an item, whose words say all bytes.
pub fn meant(item: &Item, reply: &mut Reply) -> Package {
    let mut package = Package::new(reply.alloc());
    for word in item.words.as_str().split(' ') {
        put_meant(&mut package, word, reply);
    }
    package
}
