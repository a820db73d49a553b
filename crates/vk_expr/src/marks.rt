ghost use Rattle.std.specs.Prelude.{◌≡◌};
ghost use Rattle.std.specs.List.{list_any};
ghost use Rattle.std.specs.Str.{bytes_eq};

use vk_base::{List, Text};

/// The marks of a platform, such as `linux` or `x64`.
#[derive(Clone, Drop)]
pub struct Marks {
    /// The names of the marks, in any order.
    pub names: List<Text>,
}

impl Marks {
    /// Whether this is one of the marks. Takes no memory.
    pub fn has(&self, name: &str) -> bool
        ensures { result ≡ list_any (bytes_eq name.now) self.now.names }
    {
        self.names.iter().any(|mark| name == mark.as_str())
    }
}
