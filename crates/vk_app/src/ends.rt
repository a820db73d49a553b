//! How a run ends, and how that is told.
ghost use Rattle.std.specs.Prelude.{◌≡◌};
ghost use Rattle.vk_app.specs.Ends.{Tells, end_view};

use vk_base::{List, Stop, Text};
use vk_model::Outcome;
use vk_tree::{Sink, send};
use vk_worklist::CloseFault;
use vk_world::Readings;

/// How a run ends, before its bytes go out.
#[derive(Drop)]
pub enum End {
    /// A report for standard output, under this status.
    Printed(u8, Text),
    /// Other bytes for standard output, under this status.
    Written(u8, List<u8>),
    /// A line for standard error, under this status.
    Told(u8, Text),
    /// Out of memory.
    Memory,
    /// A call of the tree failed.
    TreeFailed,
}

/// How a task ends, before that is told; the tree as it stands; and what is done with.
#[derive(Drop)]
pub struct Ended<T> {
    pub end: End,
    pub tree: T,
    pub read: Option<Readings>,
    pub outcome: Option<Result<Outcome, Stop<CloseFault>>>,
}

impl End {
    fn status(&self) -> u8
        ensures { result ≡ (end_view self.now).status }
    {
        match self {
            End::Printed(status, _) => *status,
            End::Written(status, _) => *status,
            End::Told(status, _) => *status,
            End::Memory => 3,
            End::TreeFailed => 4,
        }
    }

    fn bytes(&self) -> &[u8]
        ensures { result.now ≡ (end_view self.now).out }
    {
        match self {
            End::Printed(_, report) => report.as_bytes(),
            End::Written(_, bytes) => bytes.as_slice(),
            End::Told(_, _) => &[],
            End::Memory => &[],
            End::TreeFailed => &[],
        }
    }

    fn line(&self) -> &[u8]
        ensures { result.now ≡ (end_view self.now).err }
    {
        match self {
            End::Printed(_, _) => &[],
            End::Written(_, _) => &[],
            End::Told(_, line) => line.as_bytes(),
            End::Memory => b"memory\n",
            End::TreeFailed => b"tree failed\n",
        }
    }
}

/// Tells an end on both sinks, and answers the status: 5 where one of them stopped.
pub fn tell<O: Sink, E: Sink>(end: &End, out: &mut O, err: &mut E) -> u8
    ensures { Tells (end_view end.now) result (O.state out.old) (O.state out.new)
        (E.state err.old) (E.state err.new) }
{
    if send(out, end.bytes()).is_err() {
        let _ = send(err, b"output failed\n");
        return 5;
    }
    if send(err, end.line()).is_err() {
        return 5;
    }
    end.status()
}
