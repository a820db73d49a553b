//! A package: the files that a build makes, by their paths.
ghost use Rattle.std.specs.Prelude.{◌≡◌, ◌↔◌, [], IfOk, IfErr, OnErr, IsTrue, map, option_map};
ghost use Rattle.vk_entry.specs.Packages.{IsPackage, IsPackagePath, Puts, bytes_at};
ghost use Rattle.vk_entry.specs.PackageViews.{file_view};
ghost use Rattle.vk_entry.specs.Places.{IsAt, IsGap};

use std::alloc::Global;
use std::marker::Model;
use vk_base::{List, Memory, TreePath};

/// A file of a package.
#[derive(Drop)]
pub struct PackageFile {
    /// Where it stands in the package.
    pub path: TreePath,
    /// What it holds.
    pub bytes: List<u8>,
}

/// The files that a build makes, in the order of the texts of their paths. No path stands twice.
#[derive(Drop)]
pub struct Package {
    files: Vec<PackageFile>,
}

impl Model for Package {
    ghost use Rattle.std.specs.Prelude.{List, map};
    ghost use Rattle.vk_entry.specs.Packages.{File, IsPackage};
    ghost use Rattle.vk_entry.specs.PackageViews.{file_view};

    ghost Value = { List File };

    ghost view = { λ p. map file_view p.files.items };

    ghost invariant = { λ p. IsPackage (map file_view p.files.items) };
}

impl Package {
    /// No files. Takes no memory.
    pub fn new(alloc: Global) -> Package
        ensures { result ≡ [] }
    {
        Package {
            files: Vec::new(alloc),
        }
    }

    /// A package of these files, whose paths' texts have to ascend. Takes no memory.
    pub fn from_files(files: List<PackageFile>) -> Package
        requires { IsPackage (map file_view files) }
        ensures { result ≡ map file_view files }
    {
        Package {
            files: files.into_vec(),
        }
    }

    /// Its files, in the order of the texts of their paths. Takes no memory.
    pub fn files(&self) -> &[PackageFile]
        ensures files { map file_view result.now ≡ self.now }
        ensures package { IsPackage self.now }
    {
        self.files.as_slice()
    }

    /// The bytes of the file at a path; `None` exactly where no file of the package has it. Looks
    /// at few of the files, and takes no memory.
    pub fn file(&self, path: &TreePath) -> Option<&[u8]>
        ensures { option_map (λ b. b.now) result ≡ bytes_at path.now self.now }
    {
        match place_of(self.files.as_slice(), path) {
            Ok(place) => Some(self.files[place].bytes.as_slice()),
            Err(_) => None,
        }
    }

    /// Puts a file at its place. It answers `false` exactly where a file has the path already, and
    /// then, as when memory runs out, nothing has changed.
    pub fn put(&mut self, path: TreePath, bytes: List<u8>) -> Result<bool, Memory>
        ensures put { IfOk result
            (λ new. Puts (record { path = path; bytes = bytes }) self.old new self.new) }
        ensures same { OnErr result (self.new ≡ self.old) }
        ensures package { IsPackage self.new }
    {
        match place_of(self.files.as_slice(), &path) {
            Ok(_) => Ok(false),
            Err(place) => {
                self.files.insert(place, PackageFile { path, bytes })?;
                Ok(true)
            }
        }
    }
}

// Where the file with this path stands, or else where it would go.
fn place_of(files: &[PackageFile], path: &TreePath) -> Result<usize, usize>
    requires { IsPackage (map file_view files.now) }
    ensures found { IfOk result (IsAt path.now (map file_view files.now)) }
    ensures absent { IfErr result (IsGap path.now (map file_view files.now)) }
{
    files.binary_search_by(|file| file.path.cmp_text(path))
}

/// Whether a package's files may have this path: it isn't rooted, has no steps up, and has one to
/// 60 parts. Takes no memory.
pub fn is_package_path(path: &TreePath) -> bool
    ensures { IsTrue result ↔ IsPackagePath path.now }
{
    matches!(
        (path.is_rooted(), path.steps_up(), path.part_count()),
        (false, 0, 1..=60)
    )
}
