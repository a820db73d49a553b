//! Two values with a mark between.
ghost use Rattle.std.specs.Prelude.{◌≡◌, ◌<◌, ◌++◌, ◌∷◌, IfOk, MatchOption, option_map};
ghost use Rattle.vk_base.specs.Paths.{Lacks};
ghost use Rattle.vk_forms.specs.Forms.{ReadsAs, pair_plain, pair_text, IsRightPair};

use crate::forms::Form;
use std::alloc::Global;
use vk_base::Memory;

/// What stands before the first such mark, and what behind it; `None` exactly where there is none.
pub(crate) fn cut(text: &str, mark: char) -> Option<(&str, &str)>
    requires { mark < 128 }
    ensures { MatchOption result (Lacks mark text.now)
        (λ p. (text.now ≡ p.0.now ++ mark ∷ p.1.now) × Lacks mark p.0.now) }
{
    text.split_once(mark)
}

/// Two values with a mark between, which the text of the first lacks.
pub(crate) fn read_pair<A: Form, B: Form>(
    alloc: Global,
    text: &str,
    mark: char,
    first: &A,
    second: &B,
) -> Result<Option<(A::Out, B::Out)>, Memory>
    requires { mark < 128 }
    ensures { IfOk result (λ found. ReadsAs
        (pair_text mark (A.prints first.now) (B.prints second.now))
        (IsRightPair mark (A.prints first.now) (A.is_right first.now) (B.is_right second.now))
        text.now (option_map (pair_plain A.plain B.plain) found)) }
{
    let Some((front, rest)) = cut(text, mark) else {
        return Ok(None);
    };
    let Some(one) = first.read(alloc, front)? else {
        return Ok(None);
    };
    match second.read(alloc, rest)? {
        Some(other) => Ok(Some((one, other))),
        None => Ok(None),
    }
}

/// Two values with a blank between.
#[derive(Drop)]
pub struct Then<A, B>(pub A, pub B);

impl<A: Form, B: Form> Form for Then<A, B> {
    type Out = (A::Out, B::Out);

    ghost Plain = { A.Plain × B.Plain };

    ghost plain = { pair_plain A.plain B.plain };

    ghost prints = { λ f. pair_text 32 (A.prints f.0) (B.prints f.1) };

    ghost is_right = { λ f. IsRightPair 32 (A.prints f.0) (A.is_right f.0) (B.is_right f.1) };

    fn read(&self, alloc: Global, text: &str) -> Result<Option<(A::Out, B::Out)>, Memory> {
        read_pair(alloc, text, ' ', &self.0, &self.1)
    }
}
