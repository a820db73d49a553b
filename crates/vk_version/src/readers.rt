//! The version of a text under each scheme.
ghost use Rattle.std.specs.Prelude.{◌≡◌, IfErr, IfOk};
ghost use Rattle.semver.specs.Identifiers.{pre_text};
ghost use Rattle.vk_spec.specs.Reading.{Gives};
ghost use Rattle.vk_base.specs.Stops.{fault_in};
ghost use Rattle.vk_version.specs.declared.faults.VersionFault.TheVariants as fault;
ghost use Rattle.vk_version.specs.Schemes as the;
ghost use Rattle.vk_version.specs.Readings.{date_fault, fault_unless, reads_version, unless};
ghost use Rattle.vk_version.specs.Steps.{IsDate, parts_in};
ghost use Rattle.vk_version.specs.Views.{scheme_view};

use crate::days::{day_numbers, is_day};
use crate::faults::VersionFault;
use crate::number_lists::Numbers;
use crate::numbers::{are_numbers, cut, push_later, push_numbers};
use crate::plains::is_version_string;
use crate::schemes::{Class, Scheme};
use crate::tails::{read_form, semver_fault};
use crate::versions::{Version, with_parts};
use semver::Prerelease;
use std::alloc::Global;
use vk_base::Unread;

// Reads numbers joined by dots, a pre-release and build metadata.
fn read_relaxed(alloc: Global, text: &str, port: u32) -> Result<Version, Unread<VersionFault>>
    ensures { Gives (λ v. v) fault_in result (reads_version the.relaxed text.now port) }
{
    let (core, pre) = read_form(alloc, text)?;
    let mut numbers = Numbers::new(alloc);
    push_numbers(&mut numbers, core)?;
    with_parts(alloc, Class::Dot, text, port, numbers, pre)
}

// Reads a semantic version.
fn read_semver(alloc: Global, text: &str, port: u32) -> Result<Version, Unread<VersionFault>>
    ensures { Gives (λ v. v) fault_in result (reads_version the.semver text.now port) }
{
    match semver::Version::parse(alloc, text) {
        Ok(parsed) => {
            let numbers = Numbers::from_slice(alloc, &[parsed.major, parsed.minor, parsed.patch])?;
            with_parts(alloc, Class::Dot, text, port, numbers, parsed.pre)
        }
        Err(error) => Err(semver_fault(&error)),
    }
}

// The year, the month and the day that a text begins with, and what stands after its first dot.
// `Shape` where it isn't a day with numbers after it, then `Day` where the calendar hasn't the day.
fn cut_date(text: &str) -> Result<([u64; 3], Option<&str>), Unread<VersionFault>>
    ensures ok { IfOk result (λ r. IsDate text.now r.0 (parts_in r.1)) }
    ensures err { IfErr result (λ e. fault_in e ≡ date_fault text.now) }
{
    let (day, later) = cut(text);
    let day = day.as_bytes();
    if !is_day(day) || !are_numbers(later) {
        return Err(Unread::Fault(VersionFault::Shape));
    }
    match day_numbers(day) {
        Some(day) => Ok((day, later)),
        None => Err(Unread::Fault(VersionFault::Day)),
    }
}

// Reads a day and the numbers after it.
fn read_date(alloc: Global, text: &str, port: u32) -> Result<Version, Unread<VersionFault>>
    ensures { Gives (λ v. v) fault_in result (reads_version the.date text.now port) }
{
    let (day, later) = cut_date(text)?;
    let mut numbers = Numbers::from_slice(alloc, &day)?;
    push_later(&mut numbers, later)?;
    with_parts(alloc, Class::Date, text, port, numbers, Prerelease::empty())
}

// Reads any text without control characters and without a hash.
fn read_string(alloc: Global, text: &str, port: u32) -> Result<Version, Unread<VersionFault>>
    ensures { Gives (λ v. v) fault_in result (reads_version the.string text.now port) }
{
    if !is_version_string(text.as_bytes()) {
        return Err(Unread::Fault(VersionFault::Shape));
    }
    with_parts(
        alloc,
        Class::Text,
        text,
        port,
        Numbers::new(alloc),
        Prerelease::empty(),
    )
}

/// The version that a text is under a scheme, with a port-version.
/// `Shape`, `Number` and `Day` come exactly where the text has that fault.
pub fn read(
    alloc: Global,
    scheme: Scheme,
    text: &str,
    port: u32,
) -> Result<Version, Unread<VersionFault>>
    ensures { Gives (λ v. v) fault_in result (reads_version (scheme_view scheme) text.now port) }
{
    match scheme {
        Scheme::Relaxed => read_relaxed(alloc, text, port),
        Scheme::Semver => read_semver(alloc, text, port),
        Scheme::Date => read_date(alloc, text, port),
        Scheme::Text => read_string(alloc, text, port),
    }
}
