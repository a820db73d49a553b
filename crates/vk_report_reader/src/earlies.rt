//! The lines of early files, and of folders that are in the way.
ghost use Rattle.std.specs.Prelude.{◌≡◌};
ghost use Rattle.std.proofs.Common.{inl, inr};
ghost use Rattle.vk_spec.specs.Earlies as plain;
ghost use Rattle.vk_model.specs.EarlyViews.{early_view};
ghost use Rattle.vk_model.specs.Lines.{early_line};
ghost use Rattle.vk_report_reader.specs.Earlies.{IsRightEarly, early_of, early_parts};
ghost use Rattle.vk_report_reader.specs.Earlies.{file_parts, folder_parts};

use std::alloc::Global;
use vk_base::{Memory, Text, TreePath, TripletName};
use vk_forms::{Either, Form, Or, Place, ShortPath, Then, Triplet, WhyWord, Word};
use vk_json::Why;
use vk_model::Early;

type BadFile = ((), (TreePath, (Text, Why)));

type Folders = Either<((), (TreePath, TreePath)), ((), TreePath)>;

type EarlyParts = Either<(), Either<((), TripletName), Either<BadFile, Folders>>>;

fn bad_file(parts: BadFile) -> Early
    ensures { early_view result ≡ early_of (inr (inr (inl (file_parts parts)))) }
{
    let (_, (path, (place, why))) = parts;
    Early::BadFile { path, place, why }
}

fn wrong_folder(parts: Folders) -> Early
    ensures { early_view result ≡ early_of (inr (inr (inr (folder_parts parts)))) }
{
    match parts {
        Either::One((_, (first, second))) => Early::Overlap { first, second },
        Either::Other((_, path)) => Early::Blocked { path },
    }
}

fn early_of(parts: EarlyParts) -> Early
    ensures { early_view result ≡ early_of (early_parts parts) }
{
    match parts {
        Either::One(_) => Early::TwoConfigurations,
        Either::Other(Either::One(triplet)) => Early::NoTriplet { name: triplet.1 },
        Either::Other(Either::Other(Either::One(file))) => bad_file(file),
        Either::Other(Either::Other(Either::Other(folders))) => wrong_folder(folders),
    }
}

/// What is wrong with the files and folders that are looked at before any port.
#[derive(Drop)]
pub struct AnyEarly;

impl Form for AnyEarly {
    type Out = Early;

    ghost Plain = { plain.Early };

    ghost plain = { early_view };

    ghost prints = { λ f. early_line };

    ghost is_right = { λ f. IsRightEarly };

    fn read(&self, alloc: Global, text: &str) -> Result<Option<Early>, Memory> {
        let overlap = Then(Word("overlap"), Then(ShortPath, ShortPath));
        let folders = Or(overlap, Then(Word("blocked"), ShortPath));
        let file = Then(Word("bad-file"), Then(ShortPath, Then(Place, WhyWord)));
        let named = Or(Then(Word("no-triplet"), Triplet), Or(file, folders));
        let form = Or(Word("two-configurations"), named);
        match form.read(alloc, text)? {
            Some(parts) => Ok(Some(early_of(parts))),
            None => Ok(None),
        }
    }
}
