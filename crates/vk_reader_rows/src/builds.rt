//! What recorded builds make.

use crate::jobs::{HOST, TARGET, instance_of, item_of, triplet_of};
use vk_base::{Instance, List, Memory, Unread};
use vk_entry::{Package, PackageFile};
use vk_expr::Marks;
use vk_model::Item;
use vk_recipe::{Child, Job, RecipeFault, build};
use vk_row_text::{Reply, cut};

// So many blanks.
fn blanks(count: &str, reply: &mut Reply) -> List<u8> {
    let alloc = reply.alloc();
    let count = reply.number(count);
    match vec![in alloc; b' '; count] {
        Ok(blanks) => List::from_vec(blanks),
        Err(lack) => {
            reply.lack(Memory::from(lack));
            List::new(alloc)
        }
    }
}

// The bytes that a word stands for: those of a token, or `blanks=N` for so many blanks.
fn bytes_of(word: &str, reply: &mut Reply) -> List<u8> {
    match word.strip_prefix("blanks=") {
        Some(count) => blanks(count, reply),
        None => reply.bytes(word),
    }
}

// Puts a file into a package.
fn put(package: &mut Package, path: &str, bytes: &str, reply: &mut Reply) {
    let path = reply.path(path);
    let bytes = bytes_of(bytes, reply);
    if let Err(memory) = package.put(path, bytes) {
        reply.lack(memory);
    }
}

// The port's folder with this recorded build, or with none.
fn folder_of(recipe: &str, reply: &mut Reply) -> Package {
    let mut folder = Package::new(reply.alloc());
    put(&mut folder, "src/a.h", "abc", reply);
    put(&mut folder, "copyright", "MIT", reply);
    if recipe != "none" {
        put(&mut folder, "recorded-build.json", recipe, reply);
    }
    folder
}

// A package of a file `p`, and of another in a folder.
fn child_package(bytes: &str, reply: &mut Reply) -> Package {
    let mut package = Package::new(reply.alloc());
    put(&mut package, "p", bytes, reply);
    put(&mut package, "bin/q", bytes, reply);
    package
}

fn tell_file(file: &PackageFile, reply: &mut Reply) {
    if !reply.is_empty() {
        reply.push(" ");
    }
    reply.push_path(&file.path);
    reply.push("=");
    reply.push_token(file.bytes.as_slice());
}

fn tell_files(files: &[PackageFile], reply: &mut Reply) {
    if files.is_empty() {
        reply.push("nothing");
    }
    for file in files {
        tell_file(file, reply);
    }
}

fn tell_step(word: &str, step: u32, reply: &mut Reply) {
    reply.push(word);
    reply.push_number(u64::from(step));
}

fn refused(stop: Unread<RecipeFault>, reply: &mut Reply) {
    match stop {
        Unread::Fault(RecipeFault::NoRecipe) => reply.push("no-recipe"),
        Unread::Fault(RecipeFault::Bad { place, why }) => {
            reply.push("bad ");
            reply.push_fault(&place, why);
        }
        Unread::Fault(RecipeFault::NoSource { step }) => tell_step("no-source ", step, reply),
        Unread::Fault(RecipeFault::DoublePath { step }) => tell_step("double-path ", step, reply),
        Unread::Memory(memory) => reply.lack(memory),
    }
}

// What is built, but for its dependencies.
#[derive(Clone, Copy)]
struct Ground<'a> {
    item: &'a Item,
    marks: &'a Marks,
    folder: &'a Package,
}

fn tell(ground: Ground<'_>, deps: &[Child<'_>], reply: &mut Reply) {
    let job = Job {
        item: ground.item,
        marks: ground.marks,
        folder: ground.folder,
        deps,
    };
    match build(reply.alloc(), &job) {
        Ok(package) => tell_files(package.files(), reply),
        Err(stop) => refused(stop, reply),
    }
}

// Builds with those of two dependencies that a row names.
fn tell_with(
    ground: Ground<'_>,
    children: &str,
    own: Child<'_>,
    host: Child<'_>,
    reply: &mut Reply,
) {
    match children {
        "none" => tell(ground, &[], reply),
        "own" => tell(ground, &[own], reply),
        "host" => tell(ground, &[host], reply),
        "both" => tell(ground, &[host, own], reply),
        _ => reply.refuse(),
    }
}

fn with_instances(
    ground: Ground<'_>,
    children: &str,
    own: &Instance,
    host: &Instance,
    reply: &mut Reply,
) {
    let own_package = child_package("own", reply);
    let host_package = child_package("host", reply);
    let own = Child {
        inst: own,
        package: &own_package,
    };
    let host = Child {
        inst: host,
        package: &host_package,
    };
    tell_with(ground, children, own, host, reply);
}

fn with_own(ground: Ground<'_>, children: &str, own: &Instance, reply: &mut Reply) {
    if let Some(host) = instance_of("t", HOST, reply) {
        with_instances(ground, children, own, &host, reply);
    }
}

fn with_children(ground: Ground<'_>, children: &str, reply: &mut Reply) {
    if let Some(own) = instance_of("t", TARGET, reply) {
        with_own(ground, children, &own, reply);
    }
}

fn with_folder(item: &Item, marks: &Marks, row: &str, reply: &mut Reply) {
    let (children, recipe) = cut(row);
    let folder = folder_of(recipe, reply);
    let ground = Ground {
        item,
        marks,
        folder: &folder,
    };
    with_children(ground, children, reply);
}

// The item of a word of features.
fn own_item(features: &str, reply: &mut Reply) -> Option<Item> {
    let inst = instance_of("a", TARGET, reply)?;
    let needs = List::new(reply.alloc());
    item_of(inst, features, needs, reply)
}

fn with_marks(marks: &Marks, row: &str, reply: &mut Reply) {
    let (features, row) = cut(row);
    if let Some(item) = own_item(features, reply) {
        with_folder(&item, marks, row, reply);
    }
}

/// `build native|foreign FEATURES CHILDREN RECIPE`: the files of the package that the recorded
/// build makes of `a`, or why it makes none. The port's folder has the files `src/a.h` and
/// `copyright`, and the recorded build unless that is `none`, where `blanks=N` stands for so many
/// blanks; the children are `none`, `own`, `host` or `both` of the packages of `t`.
pub fn answer(rest: &str, reply: &mut Reply) {
    let (native, row) = cut(rest);
    if let Some(triplet) = triplet_of(TARGET, reply) {
        with_marks(triplet.marks(native == "native"), row, reply);
    }
}
