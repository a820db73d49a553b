//! What lines say, gathered line by line.
ghost use Rattle.std.specs.Prelude.{◌≡◌, [], IfOk, map};
ghost use Rattle.vk_abi_text.specs.Adding.{Adds, Follows, PutsOnce, PutsOther, TellsLast};
ghost use Rattle.vk_abi_text.specs.Adding.{gathering_view};
ghost use Rattle.vk_model.specs.SettingViews.{instance_view};
ghost use Rattle.vk_abi_text.specs.Forms.{line_view};
ghost use Rattle.vk_abi_text.specs.Gathered.{gathered};
ghost use Rattle.vk_abi_text.specs.Views.{dep_view, file_view};

use crate::inputs::DepDigest;
use crate::kinds::{AnyLine, Line};
use std::alloc::Global;
use std::cmp::Ordering;
use vk_base::{FeatureName, Instance, List, Memory, PortName, TreePath, TripletName};
use vk_digest::Digest;
use vk_folder::FileDigest;
use vk_forms::Form;
use vk_model::Builder;
use vk_version::Version;

/// What the lines so far say.
#[derive(Drop)]
pub(crate) struct Gathering {
    pub(crate) builder: Option<Builder>,
    pub(crate) deps: List<DepDigest>,
    pub(crate) features: List<FeatureName>,
    pub(crate) files: List<FileDigest>,
    pub(crate) native: Option<bool>,
    pub(crate) port: Option<PortName>,
    pub(crate) triplet: Option<(TripletName, Digest)>,
    pub(crate) version: Option<Version>,
}

impl Gathering {
    /// Nothing yet.
    pub(crate) fn new(alloc: Global) -> Gathering
        ensures { gathering_view result ≡ gathered [] }
    {
        Gathering {
            builder: None,
            deps: List::new(alloc),
            features: List::new(alloc),
            files: List::new(alloc),
            native: None,
            port: None,
            triplet: None,
            version: None,
        }
    }
}

// Puts a value where none is; false where there is one.
fn put_once<T: Drop>(place: &mut Option<T>, value: T) -> bool
    ensures { PutsOnce value place.old place.new result }
{
    if place.is_some() {
        return false;
    }
    *place = Some(value);
    true
}

// Whether the last dependency is one on this instance.
fn is_last_instance(deps: &[DepDigest], inst: &Instance) -> bool
    ensures { TellsLast (λ d. d.instance) (map dep_view deps.now) (instance_view inst.now) result }
{
    match deps {
        [.., last] => last.inst == *inst,
        [] => false,
    }
}

// Puts a dependency at the end; false where the last is one on the same instance.
fn put_dep(deps: &mut List<DepDigest>, dep: DepDigest) -> Result<bool, Memory>
    ensures { IfOk result (PutsOther (λ d. d.instance) (dep_view dep)
        (map dep_view deps.old) (map dep_view deps.new)) }
{
    if is_last_instance(deps.as_slice(), &dep.inst) {
        drop(dep);
        return Ok(false);
    }
    deps.push(dep)?;
    Ok(true)
}

// Whether the last file has this path.
fn is_last_path(files: &[FileDigest], path: &TreePath) -> bool
    ensures { TellsLast (λ f. f.path) (map file_view files.now) path.now result }
{
    match files {
        [.., last] => last.path == *path,
        [] => false,
    }
}

// Puts a file at the end; false where the last has the same path.
fn put_file(files: &mut List<FileDigest>, file: FileDigest) -> Result<bool, Memory>
    ensures { IfOk result (PutsOther (λ f. f.path) (file_view file)
        (map file_view files.old) (map file_view files.new)) }
{
    if is_last_path(files.as_slice(), &file.path) {
        drop(file);
        return Ok(false);
    }
    files.push(file)?;
    Ok(true)
}

// Adds what a line says; false where it is a second line.
fn add(gathering: &mut Gathering, line: Line) -> Result<bool, Memory>
    ensures { IfOk result (Adds (line_view line)
        (gathering_view gathering.old) (gathering_view gathering.new)) }
{
    match line {
        Line::Builder(builder) => Ok(put_once(&mut gathering.builder, builder)),
        Line::Dep(dep) => put_dep(&mut gathering.deps, dep),
        Line::Feature(feature) => {
            gathering.features.push(feature)?;
            Ok(true)
        }
        Line::File(file) => put_file(&mut gathering.files, file),
        Line::Native(native) => Ok(put_once(&mut gathering.native, native)),
        Line::Port(port) => Ok(put_once(&mut gathering.port, port)),
        Line::Triplet(name, digest) => Ok(put_once(&mut gathering.triplet, (name, digest))),
        Line::Version(version) => Ok(put_once(&mut gathering.version, version)),
    }
}

/// Adds what the next line says; false where the text is that of no line, or of none that is above
/// the last and new.
pub(crate) fn follow(
    alloc: Global,
    gathering: &mut Gathering,
    last: &str,
    text: &str,
) -> Result<bool, Memory>
    ensures { IfOk result (Follows last.now text.now
        (gathering_view gathering.old) (gathering_view gathering.new)) }
{
    match last.cmp(text) {
        Ordering::Less => {}
        Ordering::Equal | Ordering::Greater => return Ok(false),
    }
    match AnyLine.read(alloc, text)? {
        Some(line) => add(gathering, line),
        None => Ok(false),
    }
}
