//! Asks: a version's text without a scheme, and a port-version.
ghost use Rattle.std.specs.Prelude.{◌≡◌, IfOk};
ghost use Rattle.vk_base.specs.Printed.{version_text};
ghost use Rattle.vk_spec.specs.Reading.{Gives};
ghost use Rattle.vk_base.specs.Stops.{fault_in};
ghost use Rattle.vk_version.specs.declared.faults.VersionFault.TheVariants as fault;
ghost use Rattle.vk_version.specs.Texts.{is_plain, number_of};
ghost use Rattle.vk_version.specs.Readings.{fault_unless, port_fault, reads_ask, unless};
ghost use Rattle.vk_version.specs.AskViews.{ask_view};

use crate::cuts::split;
use crate::faults::VersionFault;
use crate::numbers::is_number;
use crate::plains::is_plain;
use std::alloc::{AllocError, Global};
use std::fmt;
use vk_base::{Memory, SharedText, Text, TokenOf, Unread, read_u32};

/// What a minimum, a baseline entry or an override asks for: a version's text without a scheme, and
/// a port-version. A port's versions table says which version it means. It is printed as its text's
/// token, `#` and the port-version.
#[derive(PartialEq, Eq, PartialOrd, Ord, Hash, Drop)]
pub struct Ask {
    /// The version's text.
    pub text: SharedText,
    /// The port-version.
    pub port: u32,
}

impl Ask {
    /// The ask as it is printed, and so a version that has its text and port-version.
    pub fn printed(&self, alloc: Global) -> Result<Text, Memory>
        ensures { IfOk result (λ t. t ≡ version_text (ask_view self.now)) }
    {
        Ok(Text::from_string(format!(in alloc; "{self}")?))
    }
}

impl fmt::Display for Ask {
    ghost use Rattle.std.specs.Prelude.{Some};

    ghost output = { λ a. Some (version_text (ask_view a)) };

    fn fmt<W: fmt::Write>(&self, f: &mut fmt::Formatter<W>) -> fmt::Result {
        write!(f, "{}#{}", TokenOf(self.text.as_bytes()), self.port)
    }
}

impl Clone for Ask {
    ghost is_clone = { λ x y. y ≡ x };

    fn clone(&self) -> Result<Ask, AllocError> {
        Ok(Ask {
            text: self.text.clone()?,
            port: self.port,
        })
    }
}

// Reads what stands before a hash.
fn read_plain(alloc: Global, text: &str) -> Result<SharedText, Unread<VersionFault>>
    ensures { Gives (λ t. t) fault_in result
        (unless (fault_unless fault.Shape (is_plain text.now)) text.now) }
{
    if is_plain(text.as_bytes()) {
        Ok(SharedText::from_str(alloc, text)?)
    } else {
        Err(Unread::Fault(VersionFault::Shape))
    }
}

// Reads what stands after a hash.
fn read_port(digits: &str) -> Result<u32, Unread<VersionFault>>
    ensures { Gives (λ n. n) fault_in result
        (unless (port_fault digits.now) (number_of digits.now)) }
{
    if !is_number(digits.as_bytes()) {
        return Err(Unread::Fault(VersionFault::Shape));
    }
    match read_u32(digits) {
        Some(port) => Ok(port),
        None => Err(Unread::Fault(VersionFault::Number)),
    }
}

/// The ask of a text: a version's text, and then, if it likes, `#` and a port-version, which is 0
/// otherwise. `Shape` and `Number` come exactly where the text has that fault.
pub fn read_ask(alloc: Global, text: &str) -> Result<Ask, Unread<VersionFault>>
    ensures { Gives ask_view fault_in result (reads_ask text.now) }
{
    let (version, port) = split(text, '#');
    let version = read_plain(alloc, version)?;
    match port {
        Some(digits) => Ok(Ask {
            text: version,
            port: read_port(digits)?,
        }),
        None => Ok(Ask {
            text: version,
            port: 0,
        }),
    }
}
