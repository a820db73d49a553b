//! One of two values.
ghost use Rattle.std.specs.Prelude.{◌⊎◌};
ghost use Rattle.vk_forms.specs.Choices.{either_plain, either_text, IsRightEither};

use crate::forms::Form;
use std::alloc::Global;
use vk_base::Memory;

/// One value or another.
#[derive(Drop)]
pub enum Either<A, B> {
    /// The one.
    One(A),
    /// The other.
    Other(B),
}

/// A value of one form or of another.
#[derive(Drop)]
pub struct Or<A, B>(pub A, pub B);

impl<A: Form, B: Form> Form for Or<A, B> {
    type Out = Either<A::Out, B::Out>;

    ghost Plain = { A.Plain ⊎ B.Plain };

    ghost plain = { either_plain A.plain B.plain };

    ghost prints = { λ f. either_text (A.prints f.0) (B.prints f.1) };

    ghost is_right = { λ f. IsRightEither (A.is_right f.0) (B.is_right f.1) };

    fn read(&self, alloc: Global, text: &str) -> Result<Option<Either<A::Out, B::Out>>, Memory> {
        if let Some(one) = self.0.read(alloc, text)? {
            return Ok(Some(Either::One(one)));
        }
        match self.1.read(alloc, text)? {
            Some(other) => Ok(Some(Either::Other(other))),
            None => Ok(None),
        }
    }
}
