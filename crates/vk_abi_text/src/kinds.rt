//! Lines of all kinds, as they are read.
ghost use Rattle.std.specs.Prelude.{◌≡◌};
ghost use Rattle.vk_abi_text.specs.Forms.{line_parts, line_view, other};
ghost use Rattle.vk_abi_text.specs.Lines.{AbiLine, line_text};
ghost use Rattle.vk_abi_text.specs.Parts.{line_of};
ghost use Rattle.vk_abi_text.specs.Rights.{IsReadableLine};

use crate::inputs::DepDigest;
use crate::leaves::{AnyVersion, PlannedFeature, YesOrNo};
use crate::values::{AnyBuilder, AnyDep, AnyFile, AnyTriplet};
use std::alloc::Global;
use vk_base::{FeatureName, Memory, PortName, TripletName};
use vk_digest::Digest;
use vk_folder::FileDigest;
use vk_forms::{Either, Form, Or, Port, Then, Word};
use vk_model::Builder;
use vk_version::Version;

/// What a line says.
#[derive(Drop)]
pub enum Line {
    /// Who builds it.
    Builder(Builder),
    /// A direct dependency.
    Dep(DepDigest),
    /// A feature.
    Feature(FeatureName),
    /// A file of the port's folder.
    File(FileDigest),
    /// Whether the triplet is the host's.
    Native(bool),
    /// The port.
    Port(PortName),
    /// The triplet, and the digest of its file.
    Triplet(TripletName, Digest),
    /// The version.
    Version(Version),
}

type Said<T> = ((), T);

type LateParts = Either<Said<(TripletName, Digest)>, Said<Version>>;

type PlainParts = Either<Said<bool>, Either<Said<PortName>, LateParts>>;

type ListParts = Either<Said<FeatureName>, Either<Said<FileDigest>, PlainParts>>;

type LineParts = Either<Said<Builder>, Either<Said<DepDigest>, ListParts>>;

fn line_of(parts: LineParts) -> Line
    ensures { line_view result ≡ line_of (line_parts parts) }
{
    match parts {
        Either::One((_, builder)) => Line::Builder(builder),
        Either::Other(Either::One((_, dep))) => Line::Dep(dep),
        Either::Other(Either::Other(rest)) => list_line(rest),
    }
}

fn list_line(parts: ListParts) -> Line
    ensures { line_view result ≡ line_of (line_parts (other (other parts))) }
{
    match parts {
        Either::One((_, feature)) => Line::Feature(feature),
        Either::Other(Either::One((_, file))) => Line::File(file),
        Either::Other(Either::Other(rest)) => plain_line(rest),
    }
}

fn plain_line(parts: PlainParts) -> Line
    ensures { line_view result ≡ line_of (line_parts (other (other (other (other parts))))) }
{
    match parts {
        Either::One((_, native)) => Line::Native(native),
        Either::Other(Either::One((_, port))) => Line::Port(port),
        Either::Other(Either::Other(Either::One((_, (name, digest))))) => {
            Line::Triplet(name, digest)
        }
        Either::Other(Either::Other(Either::Other((_, version)))) => Line::Version(version),
    }
}

/// A line of any kind.
#[derive(Drop)]
pub struct AnyLine;

impl Form for AnyLine {
    type Out = Line;

    ghost Plain = { AbiLine };

    ghost plain = { line_view };

    ghost prints = { λ f. line_text };

    ghost is_right = { λ f. IsReadableLine };

    fn read(&self, alloc: Global, text: &str) -> Result<Option<Line>, Memory> {
        let late = Or(
            Then(Word("triplet"), AnyTriplet),
            Then(Word("version"), AnyVersion),
        );
        let plain = Or(
            Then(Word("native"), YesOrNo),
            Or(Then(Word("port"), Port), late),
        );
        let lists = Or(
            Then(Word("feature"), PlannedFeature),
            Or(Then(Word("file"), AnyFile), plain),
        );
        let form = Or(
            Then(Word("builder"), AnyBuilder),
            Or(Then(Word("dep"), AnyDep), lists),
        );
        match form.read(alloc, text)? {
            Some(parts) => Ok(Some(line_of(parts))),
            None => Ok(None),
        }
    }
}
