//! Readers of files, how a file stands, and the first that is there.
ghost use Rattle.std.specs.Prelude.{◌≡◌, ◌<◌, ◌^◌, ◌∷◌, [], List, ℕ, Ok, Result};
ghost use Rattle.std.specs.Prelude.{IfOk, IfSome, IsSome, Some};
ghost use Rattle.std.specs.Prelude.{length, false, option_map, slice_get};
ghost use Rattle.std.specs.List.{find};
ghost use Rattle.vk_spec.specs.Reading.{Gives};
ghost use Rattle.vk_base.specs.Stops.{fault_in, has_failed, is_failure};
ghost use Rattle.vk_json.specs.declared.faults.FileFault as faults;
ghost use Rattle.vk_files.specs.Views.{held, kept_at, kept_of, seen_view};
ghost use Rattle.vk_files.specs.Finds.{ReadsFrom};
ghost use Rattle.vk_files.specs.Within.{LooksWithin, up_to_first};
ghost use Rattle.vk_base.specs.Stops.{fault_seen};
ghost use Rattle.vk_files.specs.Readings.{IsFaultOf, told_at, or_told, file_as, seen_file};
ghost use Rattle.vk_files.specs.Readings.{standing_at, standing_by, is_there, is_at};
ghost use Rattle.vk_files.specs.StandingViews.{standing_view};

use crate::archives::Archive;
use crate::bad_files::{BadFile, TellsBadFile};
use crate::caches::FileCache;
use crate::found::Found;
use crate::rooms::Room;
use std::alloc::Global;
use vk_base::{Stop, TreePath, Unread};
use vk_json::{FileFault, Scratch, Why, wrong};
use vk_tree::Tree;

/// A way to read the bytes of a file.
pub trait FileReader {
    /// What is read.
    type Out: Drop;

    ghost Plain: { Type 0 };

    ghost plain: { Self.Out → Plain };

    ghost reads: { Self → List ℕ → Result Plain faults.FileFault };

    /// What the bytes mean, or their first fault. The scratch is for readers of JSON.
    fn read(
        &self,
        alloc: Global,
        bytes: &[u8],
        scratch: &mut Scratch,
    ) -> Result<Self::Out, Unread<FileFault>>
        requires { length bytes.now < 2 ^ 32 }
        ensures { Gives plain fault_in result (reads self.now bytes.now) };
}

/// How a file stands.
#[derive(Clone, Copy, Debug, PartialEq, Eq)]
pub enum Standing {
    /// It isn't there.
    Missing,
    /// It is longer than the longest that is read.
    TooLong,
    /// It can be read.
    Readable,
}

impl Standing {
    /// Whether a file stands there, be it too long or not.
    pub fn is_there(self) -> bool
        ensures { result ≡ is_there (standing_view self) }
    {
        match self {
            Standing::Missing => false,
            Standing::TooLong | Standing::Readable => true,
        }
    }
}

// The fault of a file, told with the file.
fn bad_file<F: TellsBadFile>(path: &TreePath, fault: Unread<FileFault>) -> Stop<F>
    ensures told { IfSome (fault_seen F.plain result)
        (IsFaultOf F.told path.now (fault_in fault)) }
    ensures tree_ok { is_failure result ≡ false }
{
    let FileFault { place, why } = match fault {
        Unread::Fault(fault) => fault,
        Unread::Memory(memory) => return Stop::Memory(memory),
    };
    match path.clone() {
        Ok(path) => Stop::Fault(F::of(BadFile { path, place, why })),
        Err(lack) => Stop::from(lack),
    }
}

// What is found at a path, by a reader.
fn read_found<R: FileReader>(
    alloc: Global,
    found: &Found,
    reader: &R,
    room: &mut Room,
) -> Result<R::Out, Unread<FileFault>>
    ensures { Gives R.plain fault_in result (seen_file (R.reads reader.now) (seen_view found.now)) }
{
    match found {
        Found::Absent => Err(wrong(alloc, Why::Absent)),
        Found::TooLarge => Err(wrong(alloc, Why::Large)),
        Found::Bytes(file) => reader.read(alloc, file.bytes.as_slice(), room.scratch(alloc)?),
    }
}

// What is told of a file, with the file.
#[tactic(auto, using(crate::proofs::ReadLemmas::told_fails))]
fn told<R: FileReader, F: TellsBadFile>(
    path: &TreePath,
    answer: Result<R::Out, Unread<FileFault>>,
) -> Result<R::Out, Stop<F>>
    ensures told { (read : Result R.Plain faults.FileFault) → Gives R.plain fault_in answer read →
        Gives R.plain (fault_seen F.plain) result (or_told F.told (told_at path.now read)) }
    ensures tree_ok { has_failed result ≡ false }
{
    match answer {
        Ok(read) => Ok(read),
        Err(fault) => Err(bad_file(path, fault)),
    }
}

impl FileCache {
    // What stands at the path with this place, by a reader.
    fn read_at<R: FileReader>(
        &mut self,
        alloc: Global,
        place: usize,
        reader: &R,
    ) -> Result<R::Out, Unread<FileFault>>
        requires { place < length (kept_of self.old) }
        ensures read { IfSome (slice_get (kept_of self.old) place)
            (λ e. Gives R.plain fault_in result (seen_file (R.reads reader.now) e.1)) }
        ensures same { kept_of self.new ≡ kept_of self.old }
    {
        let found = self.found.get_index(place).unwrap().1;
        read_found(alloc, found, reader, &mut self.room)
    }
}

fn standing_of(found: &Found) -> Standing
    ensures { standing_view result ≡ standing_by (seen_view found.now) }
{
    match found {
        Found::Absent => Standing::Missing,
        Found::TooLarge => Standing::TooLong,
        Found::Bytes(_) => Standing::Readable,
    }
}

impl<T: Tree> Archive<T> {
    /// What the file at a path means to a reader; the file is kept. `Fault` tells the place and the
    /// word of the first fault: the file is absent or too long, or what the reader says of its
    /// bytes.
    pub fn read<R: FileReader, F: TellsBadFile>(
        &mut self,
        path: &TreePath,
        reader: &R,
    ) -> Result<R::Out, Stop<F>>
        ensures reads { ReadsFrom F.plain R.plain result
            (file_as F.told (R.reads reader.now) path.now) (λ f. path.now ∷ [])
            (held T.state self.old) (held T.state self.new) }
        ensures within { LooksWithin (path.now ∷ []) self.old.kept self.new.kept }
        ensures there { IfOk result (λ _. IsSome (kept_at path.now self.new.kept)) }
    {
        let place = self.files.look::<T, F>(&mut self.tree, path)?;
        told::<R, F>(path, self.files.read_at(self.alloc, place, reader))
    }

    /// How the file at a path stands, which is kept.
    pub fn standing<F: TellsBadFile>(&mut self, path: &TreePath) -> Result<Standing, Stop<F>>
        ensures reads { ReadsFrom F.plain standing_view result (λ f. Ok (standing_at path.now f))
            (λ f. path.now ∷ []) (held T.state self.old) (held T.state self.new) }
        ensures within { LooksWithin (path.now ∷ []) self.old.kept self.new.kept }
        ensures there { IfOk result (λ standing. option_map standing_by
            (kept_at path.now self.new.kept) ≡ Some (standing_view standing)) }
    {
        let place = self.files.look::<T, F>(&mut self.tree, path)?;
        Ok(standing_of(self.files.at(place)))
    }

    /// Whether a file stands at a path, be it too long or not. No fault is told.
    pub fn is_at<F: TellsBadFile>(&mut self, path: &TreePath) -> Result<bool, Stop<F>>
        ensures { ReadsFrom F.plain (λ there. there) result (λ files. Ok (is_at files path.now))
            (λ f. path.now ∷ []) (held T.state self.old) (held T.state self.new) }
    {
        let standing = self.standing::<F>(path)?;
        Ok(standing.is_there())
    }

    /// The first of the paths at which a file stands; `None` exactly where none stands at any. No
    /// path after the first is looked at. No fault is told.
    pub fn first<'a, F: TellsBadFile>(
        &mut self,
        paths: &'a [TreePath],
    ) -> Result<Option<&'a TreePath>, Stop<F>>
        ensures { ReadsFrom F.plain (option_map (λ path. path.now)) result
            (λ files. Ok (find (is_at files) paths.now))
            (λ files. up_to_first (is_at files) paths.now)
            (held T.state self.old) (held T.state self.new) }
    {
        for path in paths {
            if self.is_at::<F>(path)? {
                return Ok(Some(path));
            }
        }
        Ok(None)
    }
}
