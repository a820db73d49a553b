//! A tree of files, by what is known of it.
ghost use Rattle.std.specs.Prelude.{◌≡◌, IfOk, IsTrue};
ghost use Rattle.std.specs.List.{All};
ghost use Rattle.vk_spec.specs.States.{State};
ghost use Rattle.vk_spec.specs.Standing.{OnFiles};
ghost use Rattle.vk_spec.specs.Calls.{Made, CanMake, kind_of, read_of, piece_of, list_of};
ghost use Rattle.vk_spec.specs.Calls.{write_of, rename_of, remove_of};
ghost use Rattle.vk_base.specs.Paths.{is_part};

use vk_base::{List, Outage, Stop, Text, TreePath};

/// What stands at a path.
#[derive(Clone, Copy, Debug, PartialEq, Eq)]
pub enum Kind {
    /// A file.
    File,
    /// A folder: a file lies below.
    Folder,
    /// Neither.
    Absent,
}

/// Why a file, or a piece of one, wasn't read.
#[derive(Clone, Copy, Debug, PartialEq, Eq)]
pub enum ReadFault {
    /// No file stands there.
    Missing,
    /// It is longer than the limit.
    TooLarge,
}

/// An entry of a folder.
#[derive(Drop)]
pub struct Listed {
    /// Its name.
    pub name: Text,
    /// Whether it is a folder itself.
    pub folder: bool,
}

/// Why a folder wasn't listed.
#[derive(Clone, Copy, Debug, PartialEq, Eq)]
pub enum ListFault {
    /// No file lies below it.
    Missing,
    /// It has more than 100,000 entries.
    Many,
}

/// Why nothing was renamed.
#[derive(Clone, Copy, Debug, PartialEq, Eq)]
pub enum MoveFault {
    /// Nothing stands at the old path or below it.
    Missing,
    /// Something stands at the new path or below it.
    Exists,
}

/// Why no file was removed.
#[derive(Clone, Copy, Debug, PartialEq, Eq)]
pub enum RemoveFault {
    /// No file stands there.
    Missing,
}

/// Files by their paths. A folder stands where a file lies below it.
pub trait Tree {
    ghost use Rattle.vk_tree.specs.Answers.{kind_answer, read_answer, list_answer};
    ghost use Rattle.vk_tree.specs.Answers.{write_answer, move_answer, remove_answer};

    /// What is known of it: its files and the log of what it was asked to read, where it tells
    /// them; how many changes, failures and calls there were; and whether no call is to fail.
    ghost state: { Self → State };

    /// What stands at a path. `Failed` only where the count of faults may have increased, here and
    /// in the calls below; any other answer leaves the count.
    fn kind(&mut self, path: &TreePath) -> Result<Kind, Outage>
        ensures { Made (kind_of path.now) (kind_answer result) (state self.old) (state self.new) };

    /// The bytes of a file, at most `limit` of them. `Missing` exactly where no file stands at the
    /// path, `TooLarge` exactly where it is longer than the limit, `Failed` only where the count
    /// of faults may have increased; any other answer leaves the count.
    fn read(&mut self, path: &TreePath, limit: u64) -> Result<List<u8>, Stop<ReadFault>>
        ensures { Made (read_of path.now limit) (read_answer result) (state self.old)
            (state self.new) };

    /// The bytes of a file from `at` on, as many as there are up to `most`. `Missing` exactly where
    /// no file stands at the path; never `TooLarge`.
    fn piece(&mut self, path: &TreePath, at: u64, most: u32) -> Result<List<u8>, Stop<ReadFault>>
        ensures { Made (piece_of path.now at most) (read_answer result) (state self.old)
            (state self.new) };

    /// The entries of a folder, each once, by the bytes of their names, which are parts of a path.
    /// `Missing` exactly where no file lies below the folder, `Many` exactly where it has more than
    /// 100,000 entries.
    fn list(&mut self, dir: &TreePath) -> Result<List<Listed>, Stop<ListFault>>
        ensures made { Made (list_of dir.now) (list_answer result) (state self.old)
            (state self.new) }
        ensures parts { IfOk result (All (λ l. IsTrue (is_part l.name))) };

    /// Makes the bytes those of the file at a path, and leaves all else. Above the path and below
    /// it no file may stand. A write that fails may leave any bytes at the path, or none.
    fn write(&mut self, path: &TreePath, bytes: &[u8]) -> Result<(), Outage>
        requires { OnFiles (CanMake (write_of path.now bytes.now)) (state self.old) }
        ensures { Made (write_of path.now bytes.now) (write_answer result) (state self.old)
            (state self.new) };

    /// Moves the file at a path, or all files below it, to another path. `Missing` exactly where
    /// nothing stands at the one path or below it, and else `Exists` exactly where something does
    /// at or below the other. Above the other no file may stand, and neither path may begin the
    /// other.
    fn rename(&mut self, from: &TreePath, to: &TreePath) -> Result<(), Stop<MoveFault>>
        requires { OnFiles (CanMake (rename_of from.now to.now)) (state self.old) }
        ensures { Made (rename_of from.now to.now) (move_answer result) (state self.old)
            (state self.new) };

    /// Removes the file at a path. `Missing` exactly where none stands there.
    fn remove(&mut self, path: &TreePath) -> Result<(), Stop<RemoveFault>>
        ensures { Made (remove_of path.now) (remove_answer result) (state self.old)
            (state self.new) };

    /// Its count of faults, which never falls.
    fn faults(&self) -> u64
        ensures { result ≡ (state self.now).faults };
}
