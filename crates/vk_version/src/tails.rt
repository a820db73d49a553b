//! What follows the numbers of a version text: a pre-release and build metadata.
ghost use Rattle.std.specs.Prelude.{◌≡◌, ◌≢◌, ◌⊎◌};
ghost use Rattle.semver.specs.Identifiers.{build_text, pre_text};
ghost use Rattle.semver.specs.Parse.{memory_error};
ghost use Rattle.vk_spec.specs.Reading.{Gives};
ghost use Rattle.vk_base.specs.Stops.{fault_in, out_of_memory};
ghost use Rattle.vk_base.specs.declared.stops.Unread.TheVariants as unread;
ghost use Rattle.vk_version.specs.declared.faults.VersionFault.TheVariants as fault;
ghost use Rattle.vk_version.specs.Readings.{fault_unless, unless};
ghost use Rattle.vk_version.specs.Steps.{IsCut, form_view, passes, reads_form, shape_if, text_in};
ghost use Rattle.vk_version.specs.Texts.{is_dotted, is_metadata, is_pre};

use crate::cuts::split;
use crate::faults::VersionFault;
use crate::numbers::is_dotted;
use semver::{BuildMetadata, Prerelease};
use std::alloc::{AllocError, Global};
use vk_base::{Memory, Unread};

// What stands before the first `-` or `+` of a text, what stands after such a `-` up to the next
// `+`, and what stands after the first `+`.
fn pieces(text: &str) -> (&str, Option<&str>, Option<&str>)
    ensures { IsCut text.now result.0.now result.1 result.2 }
{
    let (front, build) = split(text, '+');
    let (core, pre) = split(front, '-');
    (core, pre, build)
}

// Why the standard's reader has no value: out of memory, or the text.
pub(crate) fn semver_fault(error: &semver::Error) -> Unread<VersionFault>
    ensures { ((result ≡ unread.Memory out_of_memory) × (error.now ≡ memory_error))
        ⊎ ((result ≡ unread.Fault fault.Shape) × (error.now ≢ memory_error)) }
{
    if *error == semver::Error::from(AllocError) {
        Unread::Memory(Memory::without_allocation())
    } else {
        Unread::Fault(VersionFault::Shape)
    }
}

// Reads a pre-release of at least one identifier.
fn read_some_pre(alloc: Global, text: &str) -> Result<Prerelease, Unread<VersionFault>>
    ensures { Gives pre_text fault_in result
        (unless (fault_unless fault.Shape (is_pre text.now)) text.now) }
{
    if text.is_empty() {
        return Err(Unread::Fault(VersionFault::Shape));
    }
    match Prerelease::new(alloc, text) {
        Ok(pre) => Ok(pre),
        Err(error) => Err(semver_fault(&error)),
    }
}

// Reads a pre-release, if there is one.
fn read_pre(alloc: Global, text: Option<&str>) -> Result<Prerelease, Unread<VersionFault>>
    ensures { Gives pre_text fault_in result
        (unless (fault_unless fault.Shape (passes is_pre text.entry)) (text_in text.entry)) }
{
    match text {
        Some(text) => read_some_pre(alloc, text),
        None => Ok(Prerelease::empty()),
    }
}

// Reads build metadata of at least one identifier.
fn read_some_metadata(alloc: Global, text: &str) -> Result<BuildMetadata, Unread<VersionFault>>
    ensures { Gives build_text fault_in result
        (unless (fault_unless fault.Shape (is_metadata text.now)) text.now) }
{
    if text.is_empty() {
        return Err(Unread::Fault(VersionFault::Shape));
    }
    match BuildMetadata::new(alloc, text) {
        Ok(metadata) => Ok(metadata),
        Err(error) => Err(semver_fault(&error)),
    }
}

// Checks build metadata, if there is any.
fn check_metadata(alloc: Global, text: Option<&str>) -> Result<(), Unread<VersionFault>>
    ensures { Gives (λ _. tt) fault_in result (shape_if (passes is_metadata text.entry)) }
{
    if let Some(text) = text {
        read_some_metadata(alloc, text)?;
    }
    Ok(())
}

// Checks numbers joined by dots, however large they are.
fn check_dotted(text: &str) -> Result<(), Unread<VersionFault>>
    ensures { Gives (λ _. tt) fault_in result (shape_if (is_dotted text.now)) }
{
    if is_dotted(text.as_bytes()) {
        Ok(())
    } else {
        Err(Unread::Fault(VersionFault::Shape))
    }
}

// The numbers' part and the pre-release of a text of the relaxed scheme. `Shape` where it hasn't
// the scheme's form.
pub(crate) fn read_form(
    alloc: Global,
    text: &str,
) -> Result<(&str, Prerelease), Unread<VersionFault>>
    ensures { Gives form_view fault_in result (reads_form text.now) }
{
    let (core, pre, build) = pieces(text);
    check_dotted(core)?;
    check_metadata(alloc, build)?;
    let pre = read_pre(alloc, pre)?;
    Ok((core, pre))
}
