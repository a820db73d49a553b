//! What goes into the build of a package, whole or borrowed.
ghost use Rattle.std.specs.Prelude.{◌≡◌};
ghost use Rattle.vk_abi_text.specs.Views.{input_view, source_view};

use vk_base::{FeatureName, Instance, List, PortName, TripletName};
use vk_digest::Digest;
use vk_folder::FileDigest;
use vk_model::Builder;
use vk_version::Version;

/// What a package depends on directly.
#[derive(Drop)]
pub struct DepDigest {
    /// The instance.
    pub inst: Instance,
    /// The SHA-256 of its own ABI text.
    pub digest: Digest,
}

/// All that goes into the build of a package.
#[derive(Drop)]
pub struct AbiInput {
    /// Who builds it.
    pub builder: Builder,
    /// The port that is built.
    pub port: PortName,
    /// Its version.
    pub version: Version,
    /// Its features, `core` among them.
    pub features: List<FeatureName>,
    /// The triplet that it is built for.
    pub triplet: TripletName,
    /// The SHA-256 of the triplet's file.
    pub triplet_digest: Digest,
    /// Whether that triplet is the host's.
    pub native: bool,
    /// The files of the port's folder.
    pub files: List<FileDigest>,
    /// What it depends on directly.
    pub deps: List<DepDigest>,
}

/// The same, borrowed.
#[derive(Clone, Copy)]
pub struct AbiSource<'a> {
    /// Who builds it.
    pub builder: &'a Builder,
    /// The port that is built.
    pub port: &'a PortName,
    /// Its version.
    pub version: &'a Version,
    /// Its features, `core` among them.
    pub features: &'a [FeatureName],
    /// The triplet that it is built for.
    pub triplet: &'a TripletName,
    /// The SHA-256 of the triplet's file.
    pub triplet_digest: Digest,
    /// Whether that triplet is the host's.
    pub native: bool,
    /// The files of the port's folder.
    pub files: &'a [FileDigest],
    /// What it depends on directly.
    pub deps: &'a [DepDigest],
}

impl AbiInput {
    /// Its parts, borrowed.
    pub fn source(&self) -> AbiSource<'_>
        ensures { source_view result ≡ input_view self.now }
    {
        AbiSource {
            builder: &self.builder,
            port: &self.port,
            version: &self.version,
            features: self.features.as_slice(),
            triplet: &self.triplet,
            triplet_digest: self.triplet_digest,
            native: self.native,
            files: self.files.as_slice(),
            deps: self.deps.as_slice(),
        }
    }
}
