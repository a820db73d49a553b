//! What lines say: builders, dependencies, files and triplets.
ghost use Rattle.std.specs.Prelude.{◌≡◌, List, ℕ};
ghost use Rattle.vk_abi_text.specs.Forms.{IsRightTriplet, builder_of, dep_of, dep_parts, file_of};
ghost use Rattle.vk_abi_text.specs.Forms.{triplet_parts};
ghost use Rattle.vk_abi_text.specs.Inputs as said;
ghost use Rattle.vk_abi_text.specs.Lines.{builder_line, dep_line, file_line};
ghost use Rattle.vk_abi_text.specs.Parts.{builder_text, dep_text, file_text, triplet_text};
ghost use Rattle.vk_abi_text.specs.Rights.{IsReadableLine};
ghost use Rattle.vk_abi_text.specs.Views.{dep_view, file_view};

use crate::inputs::DepDigest;
use crate::leaves::{Agent, AnyBuilderText, HexDigest};
use std::alloc::Global;
use vk_base::{Instance, Memory, PortName, TripletName};
use vk_digest::Digest;
use vk_folder::FileDigest;
use vk_forms::{Form, Port, ShortPath, Then, Triplet};
use vk_model::Builder;

/// A builder.
#[derive(Drop)]
pub struct AnyBuilder;

impl Form for AnyBuilder {
    type Out = Builder;

    ghost use Rattle.vk_model.specs.declared.builders.Builder.{Builder};

    ghost Plain = { Builder };

    ghost plain = { λ b. b };

    ghost prints = { λ f. builder_text };

    ghost is_right = { λ f b. IsReadableLine (builder_line b) };

    fn read(&self, alloc: Global, text: &str) -> Result<Option<Builder>, Memory> {
        match Then(Agent, AnyBuilderText).read(alloc, text)? {
            Some((name, text)) => Ok(Some(Builder { name, text })),
            None => Ok(None),
        }
    }
}

fn dep_of(parts: (PortName, (TripletName, Digest))) -> DepDigest
    ensures { dep_view result ≡ dep_of (dep_parts parts) }
{
    let (port, (triplet, digest)) = parts;
    DepDigest {
        inst: Instance { port, triplet },
        digest,
    }
}

/// A direct dependency, and the digest of its text.
#[derive(Drop)]
pub struct AnyDep;

impl Form for AnyDep {
    type Out = DepDigest;

    ghost Plain = { said.DepDigest };

    ghost plain = { dep_view };

    ghost prints = { λ f. dep_text };

    ghost is_right = { λ f d. IsReadableLine (dep_line d) };

    fn read(&self, alloc: Global, text: &str) -> Result<Option<DepDigest>, Memory> {
        match Then(Port, Then(Triplet, HexDigest)).read(alloc, text)? {
            Some(parts) => Ok(Some(dep_of(parts))),
            None => Ok(None),
        }
    }
}

/// A file, and the digest of its bytes.
#[derive(Drop)]
pub struct AnyFile;

impl Form for AnyFile {
    type Out = FileDigest;

    ghost Plain = { said.FileDigest };

    ghost plain = { file_view };

    ghost prints = { λ f. file_text };

    ghost is_right = { λ f g. IsReadableLine (file_line g) };

    fn read(&self, alloc: Global, text: &str) -> Result<Option<FileDigest>, Memory> {
        match Then(ShortPath, HexDigest).read(alloc, text)? {
            Some((path, digest)) => Ok(Some(FileDigest { path, digest })),
            None => Ok(None),
        }
    }
}

/// A triplet, and the digest of its file's bytes.
#[derive(Drop)]
pub struct AnyTriplet;

impl Form for AnyTriplet {
    type Out = (TripletName, Digest);

    ghost Plain = { List ℕ × List ℕ };

    ghost plain = { triplet_parts };

    ghost prints = { λ f. triplet_text };

    ghost is_right = { λ f. IsRightTriplet };

    fn read(&self, alloc: Global, text: &str) -> Result<Option<(TripletName, Digest)>, Memory> {
        Then(Triplet, HexDigest).read(alloc, text)
    }
}
