//! The schemes of version texts, and the classes of versions.
ghost use Rattle.std.specs.Prelude.{◌≡◌, ◌≢◌, IfNone, IfSome};
ghost use Rattle.vk_spec.specs.Versions as plain;
ghost use Rattle.vk_version.specs.ClassWords.{class_word};
ghost use Rattle.vk_version.specs.Views.{class_view};

/// How a version text is read: which of the four keys of a manifest it stands under.
#[derive(Clone, Copy, Debug, PartialEq, Eq)]
pub enum Scheme {
    /// `version`: numbers without leading zeros, joined by dots, then `-` and a pre-release, then
    /// `+` and build metadata; both may be absent.
    Relaxed,
    /// `version-semver`: Semantic Versioning 2.0.0.
    Semver,
    /// `version-date`: `YYYY-MM-DD`, then any number of `.N`.
    Date,
    /// `version-string`: any text without `#` and control characters.
    Text,
}

/// Which versions can be compared: those of one class.
#[derive(Clone, Copy, Debug, PartialEq, Eq, Hash)]
pub enum Class {
    /// Versions of the relaxed and of the semantic scheme.
    Dot,
    /// Versions with a day.
    Date,
    /// Versions of any text.
    Text,
}

impl Class {
    /// The word by which it is printed.
    pub fn word(self) -> &'static str
        ensures { result.now ≡ class_word (class_view self) }
    {
        match self {
            Class::Dot => "dot",
            Class::Date => "date",
            Class::Text => "text",
        }
    }

    /// The class of which this is the word; `None` exactly where it is the word of no class.
    pub fn read(word: &str) -> Option<Class>
        ensures found { IfSome result (λ class. word.now ≡ class_word (class_view class)) }
        ensures none { IfNone result ((class : plain.Class) → word.now ≢ class_word class) }
    {
        match word {
            "dot" => Some(Class::Dot),
            "date" => Some(Class::Date),
            "text" => Some(Class::Text),
            _ => None,
        }
    }
}
