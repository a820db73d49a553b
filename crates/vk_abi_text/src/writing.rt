//! The ABI text of an input, and its digest.
ghost use Rattle.std.specs.Prelude.{◌≡◌, ◌++◌, ◌∷◌, [], IfOk, OnOk, flat_map, map};
ghost use Rattle.std.specs.List.{All};
ghost use Rattle.sha2.specs.Sha256.{sha256};
ghost use Rattle.vk_base.specs.FeatureViews.{feature_view};
ghost use Rattle.vk_base.specs.Names.{IsName, word_rule};
ghost use Rattle.vk_base.specs.Paths.{text_of_path};
ghost use Rattle.vk_base.specs.Tokens.{IsByte};
ghost use Rattle.vk_resolution.specs.Lines.{ended};
ghost use Rattle.vk_abi_text.specs.Lines as line;
ghost use Rattle.vk_abi_text.specs.Lines.{abi_text_of, heading, line_text};
ghost use Rattle.vk_abi_text.specs.Puts.{HasRightSingles, Puts, single_lines};
ghost use Rattle.vk_abi_text.specs.Rights.{HasRightParts};
ghost use Rattle.vk_abi_text.specs.Views.{dep_view, file_view, source_view};

use crate::inputs::{AbiSource, DepDigest};
use crate::lines::{
    builder_line, dep_line, feature_line, file_line, native_line, port_line, triplet_line,
    version_line,
};
use std::alloc::Global;
use std::collections::BTreeSet;
use vk_base::{FeatureName, List, Memory, Text};
use vk_digest::Digest;
use vk_folder::FileDigest;

/// Lines in the order of their bytes, each once.
type Lines = BTreeSet<Text>;

fn put(lines: &mut Lines, line: Text) -> Result<(), Memory>
    ensures { OnOk result (Puts (line ∷ []) lines.old.keys lines.new.keys) }
{
    lines.insert(line)?;
    Ok(())
}

// The lines of which there is one each.
fn put_singles(alloc: Global, lines: &mut Lines, source: &AbiSource<'_>) -> Result<(), Memory>
    ensures lines { OnOk result (Puts (map line_text (single_lines (source_view source.now)))
        lines.old.keys lines.new.keys) }
    ensures right { OnOk result (HasRightSingles (source_view source.now)) }
{
    put(lines, builder_line(alloc, source.builder)?)?;
    put(lines, native_line(alloc, source.native)?)?;
    put(lines, port_line(alloc, source.port)?)?;
    let triplet = triplet_line(alloc, source.triplet, &source.triplet_digest)?;
    put(lines, triplet)?;
    put(lines, version_line(alloc, source.version)?)
}

fn put_deps(alloc: Global, lines: &mut Lines, deps: &[DepDigest]) -> Result<(), Memory>
    ensures { OnOk result (Puts (map line_text (map line.dep_line (map dep_view deps.now)))
        lines.old.keys lines.new.keys) }
{
    for dep in deps {
        put(lines, dep_line(alloc, dep)?)?;
    }
    Ok(())
}

fn put_features(alloc: Global, lines: &mut Lines, features: &[FeatureName]) -> Result<(), Memory>
    ensures lines { OnOk result
        (Puts (map line_text (map line.feature_line (map feature_view features.now)))
        lines.old.keys lines.new.keys) }
    ensures right { OnOk result (All (IsName word_rule) (map feature_view features.now)) }
{
    for feature in features {
        put(lines, feature_line(alloc, feature)?)?;
    }
    Ok(())
}

fn put_files(alloc: Global, lines: &mut Lines, files: &[FileDigest]) -> Result<(), Memory>
    ensures lines { OnOk result
        (Puts (map line_text (map line.file_line (map file_view files.now)))
        lines.old.keys lines.new.keys) }
    ensures right { OnOk result
        (All (λ f. All IsByte (text_of_path f.path)) (map file_view files.now)) }
{
    for file in files {
        put(lines, file_line(alloc, file)?)?;
    }
    Ok(())
}

// The first line and these lines, each ended.
fn text_of(alloc: Global, lines: &Lines) -> Result<List<u8>, Memory>
    ensures { IfOk result (λ text. text ≡ heading ++ flat_map ended lines.now.keys) }
{
    let mut text = List::from_slice(alloc, b"abi 2\n")?;
    for line in lines {
        text.extend_from_slice(line.as_bytes())?;
        text.push(b'\n')?;
    }
    Ok(text)
}

/// The ABI text of an input: its first line, and then its lines in the order of their bytes, each
/// of them once. Names, version, builder and paths keep the rules of their kinds.
pub fn abi_text(alloc: Global, source: &AbiSource<'_>) -> Result<List<u8>, Memory>
    ensures text { IfOk result (λ text. text ≡ abi_text_of (source_view source.now)) }
    ensures right { OnOk result (HasRightParts (source_view source.now)) }
{
    let mut lines = BTreeSet::new(alloc);
    put_singles(alloc, &mut lines, source)?;
    put_deps(alloc, &mut lines, source.deps)?;
    put_features(alloc, &mut lines, source.features)?;
    put_files(alloc, &mut lines, source.files)?;
    text_of(alloc, &lines)
}

/// The digest of an ABI text, which is its SHA-256 (FIPS 180-4). Takes no memory.
pub fn abi_hash(text: &[u8]) -> Digest
    ensures { result.bytes ≡ sha256 text.now }
{
    Digest::of(text)
}
