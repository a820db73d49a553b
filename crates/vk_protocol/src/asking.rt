//! The calls of a tree, each with its reply, or why it has none.
ghost use Rattle.std.specs.Prelude.{◌≡◌, ◌≤◌, IfOk, IsTrue, length};
ghost use Rattle.std.specs.List.{All};
ghost use Rattle.vk_spec.specs.Standing.{OnFiles};
ghost use Rattle.vk_spec.specs.Calls.{CanMake, kind_of, read_of, piece_of, list_of, write_of};
ghost use Rattle.vk_spec.specs.Calls.{rename_of, remove_of};
ghost use Rattle.vk_base.specs.Paths.{is_part};
ghost use Rattle.vk_protocol.specs.Runs.{Asked};
ghost use Rattle.vk_protocol.specs.Asking.{split, KindSays, ReadSays, ListSays, DoneSays};
ghost use Rattle.vk_protocol.specs.Asking.{MoveSays, RemoveSays};

use vk_base::{List, Outage, Stop, TreePath};
use vk_tree::{Kind, ListFault, Listed, MoveFault, ReadFault, RemoveFault, Tree};

// A fault of what was asked, apart from why there is no reply.
fn split<A, F>(found: Result<A, Stop<F>>) -> Result<Result<A, F>, Outage>
    ensures { result ≡ split found }
{
    match found {
        Ok(x) => Ok(Ok(x)),
        Err(Stop::Fault(fault)) => Ok(Err(fault)),
        Err(Stop::Failed) => Err(Outage::Failed),
        Err(Stop::Memory(memory)) => Err(Outage::Memory(memory)),
    }
}

/// What a run came to, as one answer.
pub fn joined<A, F>(came: Result<Result<A, F>, Outage>) -> Result<A, Stop<F>>
    ensures { split result ≡ came }
{
    match came {
        Ok(Ok(answer)) => Ok(answer),
        Ok(Err(fault)) => Err(Stop::Fault(fault)),
        Err(Outage::Failed) => Err(Stop::Failed),
        Err(Outage::Memory(memory)) => Err(Stop::Memory(memory)),
    }
}

/// What stands at a path.
pub fn ask_kind<T: Tree>(tree: &mut T, path: &TreePath) -> Result<Kind, Outage>
    ensures { Asked (kind_of path.now) KindSays result (T.state tree.old) (T.state tree.new) }
{
    tree.kind(path)
}

/// The bytes of a file.
pub fn ask_read<T: Tree>(
    tree: &mut T,
    path: &TreePath,
    limit: u64,
) -> Result<Result<List<u8>, ReadFault>, Outage>
    ensures asked { Asked (read_of path.now limit) ReadSays result (T.state tree.old)
        (T.state tree.new) }
    ensures small { IfOk result (λ r. IfOk r (λ bytes. length bytes ≤ limit)) }
{
    split(tree.read(path, limit))
}

/// The bytes of a file from a place on, as many as there are up to `most`.
pub fn ask_piece<T: Tree>(
    tree: &mut T,
    path: &TreePath,
    at: u64,
    most: u32,
) -> Result<Result<List<u8>, ReadFault>, Outage>
    ensures asked { Asked (piece_of path.now at most) ReadSays result (T.state tree.old)
        (T.state tree.new) }
    ensures small { IfOk result (λ r. IfOk r (λ bytes. length bytes ≤ most)) }
{
    split(tree.piece(path, at, most))
}

/// The entries of a folder.
pub fn ask_list<T: Tree>(
    tree: &mut T,
    dir: &TreePath,
) -> Result<Result<List<Listed>, ListFault>, Outage>
    ensures asked { Asked (list_of dir.now) ListSays result (T.state tree.old) (T.state tree.new) }
    ensures parts { IfOk result (λ r. IfOk r (All (λ l. IsTrue (is_part l.name)))) }
{
    split(tree.list(dir))
}

/// Makes the bytes those of the file at a path.
pub fn ask_write<T: Tree>(tree: &mut T, path: &TreePath, bytes: &[u8]) -> Result<(), Outage>
    requires { OnFiles (CanMake (write_of path.now bytes.now)) (T.state tree.old) }
    ensures { Asked (write_of path.now bytes.now) DoneSays result (T.state tree.old)
        (T.state tree.new) }
{
    tree.write(path, bytes)
}

/// Removes the file at a path.
pub fn ask_remove<T: Tree>(tree: &mut T, path: &TreePath) -> Result<Result<(), RemoveFault>, Outage>
    ensures { Asked (remove_of path.now) RemoveSays result (T.state tree.old)
        (T.state tree.new) }
{
    split(tree.remove(path))
}

/// Moves what stands at a path or below it.
pub fn ask_rename<T: Tree>(
    tree: &mut T,
    from: &TreePath,
    to: &TreePath,
) -> Result<Result<(), MoveFault>, Outage>
    requires { OnFiles (CanMake (rename_of from.now to.now)) (T.state tree.old) }
    ensures { Asked (rename_of from.now to.now) MoveSays result (T.state tree.old)
        (T.state tree.new) }
{
    split(tree.rename(from, to))
}
