//! The lines of an ABI text.
ghost use Rattle.std.specs.Prelude.{◌≡◌, IfOk, OnOk};
ghost use Rattle.std.specs.List.{All};
ghost use Rattle.hex.specs.Hex.{encode_lower};
ghost use Rattle.vk_base.specs.FeatureViews.{feature_view};
ghost use Rattle.vk_base.specs.Names.{IsName, port_rule, word_rule};
ghost use Rattle.vk_base.specs.Paths.{text_of_path};
ghost use Rattle.vk_base.specs.Tokens.{IsByte};
ghost use Rattle.vk_abi_text.specs.Lines as line;
ghost use Rattle.vk_abi_text.specs.Lines.{line_text};
ghost use Rattle.vk_abi_text.specs.Rights.{IsRightBuilder, IsRightVersion};
ghost use Rattle.vk_abi_text.specs.Views.{dep_view, file_view};

use crate::inputs::DepDigest;
use std::alloc::Global;
use vk_base::{FeatureName, Memory, PortName, Text, TokenOf, TripletName};
use vk_digest::Digest;
use vk_folder::FileDigest;
use vk_model::Builder;
use vk_model::lines::InstanceTokens;
use vk_version::Version;

// The hexadecimal digits of a digest.
fn hex_of(alloc: Global, digest: &Digest) -> Result<Text, Memory>
    ensures { IfOk result (λ t. t ≡ encode_lower digest.now.bytes) }
{
    Ok(Text::from_string(hex::encode(alloc, digest.bytes.as_slice())?))
}

// A text that is printed as its token.
fn token_of(text: &str) -> TokenOf<'_>
    ensures text { result.0.now ≡ text.now }
    ensures bytes { All IsByte text.now }
{
    TokenOf(text.as_bytes())
}

#[tactic(auto, using(crate::proofs::RightLemmas::right_builder))]
pub(crate) fn builder_line(alloc: Global, builder: &Builder) -> Result<Text, Memory>
    ensures line { IfOk result (λ t. t ≡ line_text (line.builder_line builder.now)) }
    ensures right { OnOk result (IsRightBuilder builder.now) }
{
    let name = token_of(builder.name.as_str());
    let text = token_of(builder.text.as_str());
    Ok(Text::from_string(format!(in alloc; "builder {name} {text}")?))
}

pub(crate) fn dep_line(alloc: Global, dep: &DepDigest) -> Result<Text, Memory>
    ensures { IfOk result (λ t. t ≡ line_text (line.dep_line (dep_view dep.now))) }
{
    let instance = InstanceTokens(&dep.inst);
    let digest = hex_of(alloc, &dep.digest)?;
    Ok(Text::from_string(format!(in alloc; "dep {instance} {digest}")?))
}

// A feature's name as text, which keeps the rule of words, also where it is one of the two that
// stand for themselves.
fn feature_text(feature: &FeatureName) -> &str
    ensures text { result.now ≡ feature_view feature.now }
    ensures name { IsName word_rule (feature_view feature.now) }
{
    match feature {
        FeatureName::Named(name) => name.as_str(),
        FeatureName::Core | FeatureName::Default => feature.as_str(),
    }
}

pub(crate) fn feature_line(alloc: Global, feature: &FeatureName) -> Result<Text, Memory>
    ensures line { IfOk result
        (λ t. t ≡ line_text (line.feature_line (feature_view feature.now))) }
    ensures right { OnOk result (IsName word_rule (feature_view feature.now)) }
{
    let feature = token_of(feature_text(feature));
    Ok(Text::from_string(format!(in alloc; "feature {feature}")?))
}

pub(crate) fn file_line(alloc: Global, file: &FileDigest) -> Result<Text, Memory>
    ensures line { IfOk result (λ t. t ≡ line_text (line.file_line (file_view file.now))) }
    ensures right { OnOk result (All IsByte (text_of_path file.now.path)) }
{
    let path = file.path.text(alloc)?;
    let path = token_of(path.as_str());
    let digest = hex_of(alloc, &file.digest)?;
    Ok(Text::from_string(format!(in alloc; "file {path} {digest}")?))
}

pub(crate) fn native_line(alloc: Global, native: bool) -> Result<Text, Memory>
    ensures { IfOk result (λ t. t ≡ line_text (line.native_line native)) }
{
    let line = if native { "native yes" } else { "native no" };
    Ok(Text::from_str(alloc, line)?)
}

#[tactic(auto, using(crate::proofs::RightLemmas::right_port))]
pub(crate) fn port_line(alloc: Global, port: &PortName) -> Result<Text, Memory>
    ensures line { IfOk result (λ t. t ≡ line_text (line.port_line port.now)) }
    ensures right { OnOk result (IsName port_rule port.now) }
{
    let port = token_of(port.as_str());
    Ok(Text::from_string(format!(in alloc; "port {port}")?))
}

#[tactic(auto, using(crate::proofs::RightLemmas::right_word))]
pub(crate) fn triplet_line(
    alloc: Global,
    triplet: &TripletName,
    digest: &Digest,
) -> Result<Text, Memory>
    ensures line { IfOk result
        (λ t. t ≡ line_text (line.triplet_line triplet.now digest.now.bytes)) }
    ensures right { OnOk result (IsName word_rule triplet.now) }
{
    let triplet = token_of(triplet.as_str());
    let digest = hex_of(alloc, digest)?;
    Ok(Text::from_string(format!(in alloc; "triplet {triplet} {digest}")?))
}

pub(crate) fn version_line(alloc: Global, version: &Version) -> Result<Text, Memory>
    ensures line { IfOk result (λ t. t ≡ line_text (line.version_line version.now)) }
    ensures right { OnOk result (IsRightVersion version.now) }
{
    let class = version.class().word();
    let text = token_of(version.text().as_str());
    let port = version.port();
    Ok(Text::from_string(format!(in alloc; "version {class} {text} {port}")?))
}
