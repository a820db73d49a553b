//! Texts cut at a mark.
ghost use Rattle.std.specs.Prelude.{◌≡◌, ◌<◌, option_map};
ghost use Rattle.vk_model.specs.Cuts.{cut_at};

/// What stands before the first such mark, an ASCII character, and what stands after it; `None`
/// exactly where there is none. Takes no memory.
pub fn cut(text: &str, mark: char) -> Option<(&str, &str)>
    requires { mark < 128 }
    ensures { option_map (λ p. (p.0.now, p.1.now)) result ≡ cut_at mark text.now }
{
    text.split_once(mark)
}
