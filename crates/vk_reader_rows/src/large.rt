//! A large package.

use crate::contents::{MOST_BYTES, refused};
use vk_base::{List, TreePath};
use vk_entry::{ContentLine, Package, contents_of, read_contents, write_contents};
use vk_row_text::Reply;

const BYTES: [u8; 1000] = [120; 1000];

// The path of a file by its number.
fn path_of(number: u32, reply: &mut Reply) -> TreePath {
    let mut name = Reply::new(reply.alloc());
    name.push("lib/");
    name.push_number(u64::from(number));
    match name.end() {
        Ok(Some(name)) => reply.path(name.as_str()),
        _ => reply.path(""),
    }
}

fn put(package: &mut Package, path: TreePath, reply: &mut Reply) {
    match List::from_slice(reply.alloc(), BYTES.as_slice()) {
        Ok(bytes) => {
            if let Err(memory) = package.put(path, bytes) {
                reply.lack(memory);
            }
        }
        Err(lack) => reply.lack(lack.into()),
    }
}

// A package of so many files, which are put in the descending order of their paths.
fn package_of(count: u32, reply: &mut Reply) -> Package {
    let mut package = Package::new(reply.alloc());
    for number in (0..count).rev() {
        let path = path_of(number.saturating_add(100_000), reply);
        put(&mut package, path, reply);
    }
    package
}

fn tell_read(bytes: &[u8], reply: &mut Reply) {
    if bytes.len() > MOST_BYTES {
        return reply.refuse();
    }
    match read_contents(reply.alloc(), bytes) {
        Ok(lines) => reply.push_number(lines.len() as u64),
        Err(stop) => refused(stop, reply),
    }
}

fn bytes_of(lines: &List<ContentLine>, reply: &mut Reply) -> List<u8> {
    match write_contents(reply.alloc(), lines) {
        Ok(bytes) => bytes,
        Err(memory) => {
            reply.lack(memory);
            List::new(reply.alloc())
        }
    }
}

fn list_of(package: &Package, reply: &mut Reply) -> List<u8> {
    match contents_of(reply.alloc(), package) {
        Ok(lines) => bytes_of(&lines, reply),
        Err(memory) => {
            reply.lack(memory);
            List::new(reply.alloc())
        }
    }
}

/// `large N`: the number of files in the contents list, read back, of a package of N files of 1,000
/// bytes.
pub fn answer(rest: &str, reply: &mut Reply) {
    let count = reply.number(rest);
    let package = package_of(count, reply);
    let bytes = list_of(&package, reply);
    tell_read(bytes.as_slice(), reply);
}
