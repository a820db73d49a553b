//! A file that isn't as it has to be, and faults that tell one.
ghost use Rattle.std.specs.Prelude.{◌≡◌};
ghost use Rattle.vk_model.specs.EarlyViews.{early_view};
ghost use Rattle.vk_model.specs.WrongViews.{wrong_view};
ghost use Rattle.vk_spec.specs.Earlies as early;
ghost use Rattle.vk_spec.specs.Pages as page;
ghost use Rattle.vk_files.specs.Readings.{Bad, bad_view, early_of, wrong_of};

use vk_base::{Text, TreePath};
use vk_json::Why;
use vk_model::{Early, Wrong};

/// A file that isn't as it has to be.
#[derive(Clone, Drop)]
pub struct BadFile {
    /// The file.
    pub path: TreePath,
    /// The place in it, a JSON Pointer (RFC 6901).
    pub place: Text,
    /// What is wrong there.
    pub why: Why,
}

/// A fault that can tell a file that isn't as it has to be.
pub trait TellsBadFile: Drop {
    ghost Plain: { Type 0 };

    ghost plain: { Self → Plain };

    ghost told: { Bad → Plain };

    /// The fault that tells this file.
    fn of(bad: BadFile) -> Self
        ensures { plain result ≡ told (bad_view bad) };
}

impl TellsBadFile for BadFile {
    ghost Plain = { Bad };

    ghost plain = { bad_view };

    ghost told = { λ bad. bad };

    fn of(bad: BadFile) -> BadFile {
        bad
    }
}

impl TellsBadFile for Early {
    ghost Plain = { early.Early };

    ghost plain = { early_view };

    ghost told = { early_of };

    fn of(bad: BadFile) -> Early {
        let BadFile { path, place, why } = bad;
        Early::BadFile { path, place, why }
    }
}

impl TellsBadFile for Wrong {
    ghost Plain = { page.Wrong };

    ghost plain = { wrong_view };

    ghost told = { wrong_of };

    fn of(bad: BadFile) -> Wrong {
        let BadFile { path, place, why } = bad;
        Wrong::BadFile { path, place, why }
    }
}
