//! Names, copied.
ghost use Rattle.std.specs.Prelude.{◌≡◌, IfOk};

use vk_base::{Memory, PortName};

// A copy of a port's name.
pub(crate) fn copy_of(port: &PortName) -> Result<PortName, Memory>
    ensures { IfOk result (λ name. name ≡ port.now) }
{
    Ok(port.clone()?)
}
