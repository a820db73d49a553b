//! Texts cut at their first mark.
ghost use Rattle.std.specs.Prelude.{◌≡◌, ◌==◌, ◌<◌, MatchOption, true, false};
ghost use Rattle.std.specs.List.{list_any, before_first, after_first};

// What stands before the first such mark of a text, and what stands after it, if there is one.
pub(crate) fn split(text: &str, mark: char) -> (&str, Option<&str>)
    requires { mark < 128 }
    ensures front { result.0.now ≡ before_first (λ b. b == mark) text.now }
    ensures rest { MatchOption result.1 (list_any (λ b. b == mark) text.now ≡ false)
        (λ rest. (list_any (λ b. b == mark) text.now ≡ true)
        × (rest.now ≡ after_first (λ b. b == mark) text.now)) }
{
    match text.split_once(mark) {
        Some((front, rest)) => (front, Some(rest)),
        None => (text, None),
    }
}
