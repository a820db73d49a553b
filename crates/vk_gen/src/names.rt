//! The names of the ports.
ghost use Rattle.std.specs.Prelude.{◌≡◌, ◌<◌, ◌++◌, IfOk, codes};
ghost use Rattle.vk_gen.specs.Loads.{port_name};

use std::alloc::Global;
use vk_base::{Memory, Text};

/// The name of the port with a number.
pub(crate) fn port_name(alloc: Global, number: u32) -> Result<Text, Memory>
    requires { number < 10000 }
    ensures { IfOk result (λ t. t ≡ port_name number) }
{
    Ok(Text::from_string(format!(in alloc; "p{number:04}")?))
}

/// The name of the versions file of the port with a number.
pub(crate) fn table_name(alloc: Global, number: u32) -> Result<Text, Memory>
    requires { number < 10000 }
    ensures { IfOk result (λ t. t ≡ port_name number ++ codes ".json") }
{
    let mut name = port_name(alloc, number)?;
    name.push_str(".json")?;
    Ok(name)
}
