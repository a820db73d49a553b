//! Fault lines.
ghost use Rattle.std.specs.Prelude.{◌≡◌};
ghost use Rattle.vk_resolution.specs.Faults as plain;
ghost use Rattle.vk_resolution.specs.Lines.{fault_line};
ghost use Rattle.vk_model.specs.FaultViews.{fault_view};
ghost use Rattle.vk_report_reader.specs.Faults.{IsRightAnd, IsRightFault};
ghost use Rattle.vk_report_reader.specs.Faults.{IsNoRegistry, no_registry_fault, no_registry_parts};
ghost use Rattle.vk_report_reader.specs.Faults.{IsNoBaseline, no_baseline_fault, no_baseline_parts};
ghost use Rattle.vk_report_reader.specs.Faults.{IsBadFile, bad_file_fault, bad_file_parts};
ghost use Rattle.vk_report_reader.specs.Faults.{IsNoVersion, no_version_fault, no_version_parts};
ghost use Rattle.vk_report_reader.specs.Faults.{IsDisagrees, disagrees_fault, disagrees_parts};
ghost use Rattle.vk_report_reader.specs.Faults.{IsConflict, conflict_fault, conflict_parts};
ghost use Rattle.vk_report_reader.specs.Faults.{IsNoFeature, no_feature_fault, no_feature_parts};
ghost use Rattle.vk_report_reader.specs.Faults.{IsUnsupported, unsupported_fault};
ghost use Rattle.vk_report_reader.specs.Faults.{unsupported_parts};

use crate::cycles::Cycle;
use crate::reasons::who_of;
use std::alloc::Global;
use vk_base::{FeatureName, Memory, PortName, Text, TreePath, TripletName};
use vk_forms::{
    Feature, FieldWord, Form, Number, Place, Port, PortOrRoot, ShortPath, TextAsk, TextVersion,
    Then, TokenText, Triplet, VersionIfAny, WhyWord, Word,
};
use vk_json::Why;
use vk_model::{Fault, Field};
use vk_version::{Ask, Version};

type NoRegistryParts = ((), (PortName, u32));

fn no_registry_fault(parts: NoRegistryParts) -> Fault
    ensures { fault_view result ≡ no_registry_fault (no_registry_parts parts) }
{
    let (_, (port, line)) = parts;
    Fault::NoRegistry { port, line }
}

// No registry serves the port.
#[derive(Drop)]
struct NoRegistry;

impl Form for NoRegistry {
    type Out = Fault;

    ghost Plain = { plain.Fault };

    ghost plain = { fault_view };

    ghost prints = { λ f. fault_line };

    ghost is_right = { λ f. IsRightAnd IsNoRegistry };

    fn read(&self, alloc: Global, text: &str) -> Result<Option<Fault>, Memory> {
        let form = Then(Word("no-registry"), Then(Port, Number));
        match form.read(alloc, text)? {
            Some(parts) => Ok(Some(no_registry_fault(parts))),
            None => Ok(None),
        }
    }
}

type NoBaselineParts = ((), (PortName, u32));

fn no_baseline_fault(parts: NoBaselineParts) -> Fault
    ensures { fault_view result ≡ no_baseline_fault (no_baseline_parts parts) }
{
    let (_, (port, line)) = parts;
    Fault::NoBaseline { port, line }
}

// The baseline has no entry for the port.
#[derive(Drop)]
struct NoBaseline;

impl Form for NoBaseline {
    type Out = Fault;

    ghost Plain = { plain.Fault };

    ghost plain = { fault_view };

    ghost prints = { λ f. fault_line };

    ghost is_right = { λ f. IsRightAnd IsNoBaseline };

    fn read(&self, alloc: Global, text: &str) -> Result<Option<Fault>, Memory> {
        let form = Then(Word("no-baseline"), Then(Port, Number));
        match form.read(alloc, text)? {
            Some(parts) => Ok(Some(no_baseline_fault(parts))),
            None => Ok(None),
        }
    }
}

type BadFileParts = ((), (TreePath, (Text, (Why, u32))));

fn bad_file_fault(parts: BadFileParts) -> Fault
    ensures { fault_view result ≡ bad_file_fault (bad_file_parts parts) }
{
    let (_, (path, (place, (why, line)))) = parts;
    Fault::BadFile {
        path,
        place,
        why,
        line,
    }
}

// A file that isn't as it has to be.
#[derive(Drop)]
struct BadFile;

impl Form for BadFile {
    type Out = Fault;

    ghost Plain = { plain.Fault };

    ghost plain = { fault_view };

    ghost prints = { λ f. fault_line };

    ghost is_right = { λ f. IsRightAnd IsBadFile };

    fn read(&self, alloc: Global, text: &str) -> Result<Option<Fault>, Memory> {
        let form = Then(
            Word("bad-file"),
            Then(ShortPath, Then(Place, Then(WhyWord, Number))),
        );
        match form.read(alloc, text)? {
            Some(parts) => Ok(Some(bad_file_fault(parts))),
            None => Ok(None),
        }
    }
}

type NoVersionParts = ((), (PortName, (Ask, u32)));

fn no_version_fault(parts: NoVersionParts) -> Fault
    ensures { fault_view result ≡ no_version_fault (no_version_parts parts) }
{
    let (_, (port, (ask, line))) = parts;
    Fault::NoVersion { port, ask, line }
}

// The table lacks the version.
#[derive(Drop)]
struct NoVersion;

impl Form for NoVersion {
    type Out = Fault;

    ghost Plain = { plain.Fault };

    ghost plain = { fault_view };

    ghost prints = { λ f. fault_line };

    ghost is_right = { λ f. IsRightAnd IsNoVersion };

    fn read(&self, alloc: Global, text: &str) -> Result<Option<Fault>, Memory> {
        let form = Then(Word("no-version"), Then(Port, Then(TextAsk, Number)));
        match form.read(alloc, text)? {
            Some(parts) => Ok(Some(no_version_fault(parts))),
            None => Ok(None),
        }
    }
}

type DisagreesParts = ((), (TreePath, (Field, (Text, (Text, u32)))));

fn disagrees_fault(parts: DisagreesParts) -> Fault
    ensures { fault_view result ≡ disagrees_fault (disagrees_parts parts) }
{
    let (_, (path, (field, (table, (manifest, line))))) = parts;
    Fault::Disagrees {
        path,
        field,
        table,
        manifest,
        line,
    }
}

// A manifest isn't what the table says of it.
#[derive(Drop)]
struct Disagrees;

impl Form for Disagrees {
    type Out = Fault;

    ghost Plain = { plain.Fault };

    ghost plain = { fault_view };

    ghost prints = { λ f. fault_line };

    ghost is_right = { λ f. IsRightAnd IsDisagrees };

    fn read(&self, alloc: Global, text: &str) -> Result<Option<Fault>, Memory> {
        let form = Then(
            Word("disagrees"),
            Then(
                ShortPath,
                Then(FieldWord, Then(TokenText, Then(TokenText, Number))),
            ),
        );
        match form.read(alloc, text)? {
            Some(parts) => Ok(Some(disagrees_fault(parts))),
            None => Ok(None),
        }
    }
}

type ConflictParts = ((), (PortName, (Version, (u32, (Version, u32)))));

fn conflict_fault(parts: ConflictParts) -> Fault
    ensures { fault_view result ≡ conflict_fault (conflict_parts parts) }
{
    let (_, (port, (first, (first_line, (second, second_line))))) = parts;
    Fault::Conflict {
        port,
        first,
        first_line,
        second,
        second_line,
    }
}

// No floor is at or above the others.
#[derive(Drop)]
struct Conflict;

impl Form for Conflict {
    type Out = Fault;

    ghost Plain = { plain.Fault };

    ghost plain = { fault_view };

    ghost prints = { λ f. fault_line };

    ghost is_right = { λ f. IsRightAnd IsConflict };

    fn read(&self, alloc: Global, text: &str) -> Result<Option<Fault>, Memory> {
        let form = Then(
            Word("conflict"),
            Then(
                Port,
                Then(TextVersion, Then(Number, Then(TextVersion, Number))),
            ),
        );
        match form.read(alloc, text)? {
            Some(parts) => Ok(Some(conflict_fault(parts))),
            None => Ok(None),
        }
    }
}

type NoFeatureParts = (
    (),
    (
        Option<PortName>,
        (TripletName, (FeatureName, (Option<Version>, u32))),
    ),
);

fn no_feature_fault(parts: NoFeatureParts) -> Fault
    ensures { fault_view result ≡ no_feature_fault (no_feature_parts parts) }
{
    let (_, (port, (triplet, (feature, (version, line))))) = parts;
    let who = who_of(port, triplet);
    Fault::NoFeature {
        who,
        feature,
        version,
        line,
    }
}

// The manifest lacks the feature.
#[derive(Drop)]
struct NoFeature;

impl Form for NoFeature {
    type Out = Fault;

    ghost Plain = { plain.Fault };

    ghost plain = { fault_view };

    ghost prints = { λ f. fault_line };

    ghost is_right = { λ f. IsRightAnd IsNoFeature };

    fn read(&self, alloc: Global, text: &str) -> Result<Option<Fault>, Memory> {
        let form = Then(
            Word("no-feature"),
            Then(
                PortOrRoot,
                Then(Triplet, Then(Feature, Then(VersionIfAny, Number))),
            ),
        );
        match form.read(alloc, text)? {
            Some(parts) => Ok(Some(no_feature_fault(parts))),
            None => Ok(None),
        }
    }
}

type UnsupportedParts = (
    (),
    (
        Option<PortName>,
        (TripletName, (FeatureName, (Option<Version>, u32))),
    ),
);

fn unsupported_fault(parts: UnsupportedParts) -> Fault
    ensures { fault_view result ≡ unsupported_fault (unsupported_parts parts) }
{
    let (_, (port, (triplet, (feature, (version, line))))) = parts;
    let who = who_of(port, triplet);
    Fault::Unsupported {
        who,
        feature,
        version,
        line,
    }
}

// What is needed can't be built.
#[derive(Drop)]
struct Unsupported;

impl Form for Unsupported {
    type Out = Fault;

    ghost Plain = { plain.Fault };

    ghost plain = { fault_view };

    ghost prints = { λ f. fault_line };

    ghost is_right = { λ f. IsRightAnd IsUnsupported };

    fn read(&self, alloc: Global, text: &str) -> Result<Option<Fault>, Memory> {
        let form = Then(
            Word("unsupported"),
            Then(
                PortOrRoot,
                Then(Triplet, Then(Feature, Then(VersionIfAny, Number))),
            ),
        );
        match form.read(alloc, text)? {
            Some(parts) => Ok(Some(unsupported_fault(parts))),
            None => Ok(None),
        }
    }
}

/// A line that says why there is no plan.
#[derive(Drop)]
pub struct AnyFault;

impl Form for AnyFault {
    type Out = Fault;

    ghost Plain = { plain.Fault };

    ghost plain = { fault_view };

    ghost prints = { λ f. fault_line };

    ghost is_right = { λ f. IsRightFault };

    fn read(&self, alloc: Global, text: &str) -> Result<Option<Fault>, Memory> {
        if let Some(fault) = NoRegistry.read(alloc, text)? {
            return Ok(Some(fault));
        }
        if let Some(fault) = NoBaseline.read(alloc, text)? {
            return Ok(Some(fault));
        }
        if let Some(fault) = BadFile.read(alloc, text)? {
            return Ok(Some(fault));
        }
        if let Some(fault) = NoVersion.read(alloc, text)? {
            return Ok(Some(fault));
        }
        if let Some(fault) = Disagrees.read(alloc, text)? {
            return Ok(Some(fault));
        }
        if let Some(fault) = Conflict.read(alloc, text)? {
            return Ok(Some(fault));
        }
        if let Some(fault) = NoFeature.read(alloc, text)? {
            return Ok(Some(fault));
        }
        if let Some(fault) = Unsupported.read(alloc, text)? {
            return Ok(Some(fault));
        }
        Cycle.read(alloc, text)
    }
}
