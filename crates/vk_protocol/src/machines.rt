//! What makes a protocol's calls, one in each step.
ghost use Rattle.std.specs.Prelude.{◌≡◌, false};
ghost use Rattle.vk_spec.specs.Standing.{OnFiles};
ghost use Rattle.vk_protocol.specs.Protocols.{Protocol};
ghost use Rattle.vk_protocol.specs.Runs.{Stepped, CanAsk, CanRunOn, CameTo, IsAtEnd};

use vk_base::{Memory, Outage};
use vk_tree::Tree;

/// A protocol of which some calls were made.
pub trait Machine {
    ghost Out: { Type 0 };

    ghost means: { Self → Protocol Out };

    /// Whether it may be to make a call; it has come to its end where not. Takes no memory.
    fn asks(&self) -> bool
        ensures { result ≡ false → IsAtEnd (means self.now) };

    /// Makes the call that it is to make, and all that is worked out up to the next one.
    fn step<T: Tree>(&mut self, tree: &mut T) -> Result<(), Outage>
        requires { OnFiles (CanAsk (means self.old)) (T.state tree.old) }
        ensures { Stepped (means self.old) result (means self.new) (T.state tree.old)
            (T.state tree.new) };
}

/// Makes all calls that are left.
pub fn run<M: Machine, T: Tree>(machine: &mut M, tree: &mut T) -> Result<(), Outage>
    requires { CanRunOn (M.means machine.old) (T.state tree.old) }
    ensures { CameTo (M.means machine.old) result (M.means machine.new) (T.state tree.old)
        (T.state tree.new) }
{
    for _ in 0..u64::MAX {
        if !machine.asks() {
            return Ok(());
        }
        machine.step(tree)?;
    }
    Err(Outage::Memory(Memory::without_allocation()))
}
