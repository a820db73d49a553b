//! The kinds of rows, by their first two words.

use crate::configurations::Question as OfConfiguration;
use crate::digests::Question as OfDigest;
use crate::documents::Question as OfJson;
use crate::expressions::Question as OfExpression;
use crate::fields::Question as OfField;
use crate::names::Question as OfName;
use crate::paths::Question as OfPath;
use crate::registries::Question as OfRegistry;
use crate::tokens::Question as OfToken;
use crate::triplets::Question as OfTriplet;
use crate::versions::Question as OfVersion;

/// What is read, and what is asked of it.
#[derive(Clone, Copy)]
pub enum Kind {
    Name(OfName),
    Path(OfPath),
    Token(OfToken),
    Digest(OfDigest),
    Version(OfVersion),
    Expression(OfExpression),
    Triplet(OfTriplet),
    Json(OfJson),
    Field(OfField),
    Manifest { is_root: bool },
    Configuration(OfConfiguration),
    Registry(OfRegistry),
    Words,
    Report,
}

/// What a word stands for in a table.
pub fn meaning<T: Copy>(table: &[(&str, T)], word: &str) -> Option<T> {
    for (name, meaning) in table {
        if *name == word {
            return Some(*meaning);
        }
    }
    None
}

/// The kind that two words stand for, with a blank between.
pub fn kind_of(words: &str) -> Option<Kind> {
    meaning(&KINDS, words)
}

const KINDS: [(&str, Kind); 64] = [
    ("name port", Kind::Name(OfName::Port)),
    ("name triplet", Kind::Name(OfName::Triplet)),
    ("name feature", Kind::Name(OfName::Feature)),
    ("name triplets", Kind::Name(OfName::Triplets)),
    ("name features", Kind::Name(OfName::Features)),
    ("name instances", Kind::Name(OfName::Instances)),
    ("path read", Kind::Path(OfPath::Read)),
    ("path letters", Kind::Path(OfPath::Letters)),
    ("path parts", Kind::Path(OfPath::Parts)),
    ("path join", Kind::Path(OfPath::Join)),
    ("path begins", Kind::Path(OfPath::Begins)),
    ("path has", Kind::Path(OfPath::Has)),
    ("path overlaps", Kind::Path(OfPath::Overlaps)),
    ("path order", Kind::Path(OfPath::Order)),
    ("path child", Kind::Path(OfPath::Child)),
    ("token of", Kind::Token(OfToken::Of)),
    ("token read", Kind::Token(OfToken::Read)),
    ("token grow", Kind::Token(OfToken::Grow)),
    ("token double", Kind::Token(OfToken::Double)),
    ("digest of", Kind::Digest(OfDigest::Of)),
    ("digest pieces", Kind::Digest(OfDigest::Pieces)),
    ("digest read", Kind::Digest(OfDigest::Read)),
    ("decimal u32", Kind::Token(OfToken::Small)),
    ("decimal u64", Kind::Token(OfToken::Large)),
    ("version read", Kind::Version(OfVersion::Read)),
    ("version show", Kind::Version(OfVersion::Shown)),
    ("version order", Kind::Version(OfVersion::Order)),
    ("version ask", Kind::Version(OfVersion::Ask)),
    ("expression read", Kind::Expression(OfExpression::Read)),
    ("expression truth", Kind::Expression(OfExpression::Truth)),
    ("expression has", Kind::Expression(OfExpression::Has)),
    ("triplet read", Kind::Triplet(OfTriplet::Read)),
    ("triplet marks", Kind::Triplet(OfTriplet::Marks)),
    (
        "triplet native-marks",
        Kind::Triplet(OfTriplet::NativeMarks),
    ),
    ("triplet keeps", Kind::Triplet(OfTriplet::Keeps)),
    ("json read", Kind::Json(OfJson::Read)),
    ("json keys", Kind::Json(OfJson::Keys)),
    ("json member", Kind::Json(OfJson::Member)),
    ("json item", Kind::Json(OfJson::Item)),
    ("json word", Kind::Json(OfJson::Word)),
    ("field port-name", Kind::Field(OfField::PortName)),
    ("field feature-name", Kind::Field(OfField::FeatureName)),
    ("field path", Kind::Field(OfField::Path)),
    ("field expression", Kind::Field(OfField::Expression)),
    ("field ask", Kind::Field(OfField::Ask)),
    ("field text", Kind::Field(OfField::Text)),
    ("field scheme", Kind::Field(OfField::Scheme)),
    ("field port-version", Kind::Field(OfField::PortVersion)),
    ("field version", Kind::Field(OfField::Version)),
    ("field version-needed", Kind::Field(OfField::VersionNeeded)),
    ("field ask-under", Kind::Field(OfField::AskUnder)),
    ("manifest root", Kind::Manifest { is_root: true }),
    ("manifest port", Kind::Manifest { is_root: false }),
    (
        "configuration read",
        Kind::Configuration(OfConfiguration::Read),
    ),
    (
        "configuration sizes",
        Kind::Configuration(OfConfiguration::Sizes),
    ),
    (
        "configuration embedded",
        Kind::Configuration(OfConfiguration::Embedded),
    ),
    (
        "configuration serves",
        Kind::Configuration(OfConfiguration::Serves),
    ),
    (
        "configuration embedded-serves",
        Kind::Configuration(OfConfiguration::EmbeddedServes),
    ),
    ("baseline read", Kind::Registry(OfRegistry::Baseline)),
    ("baseline entry", Kind::Registry(OfRegistry::Entry)),
    ("table read", Kind::Registry(OfRegistry::Table)),
    ("table find", Kind::Registry(OfRegistry::Find)),
    ("words read", Kind::Words),
    ("report read", Kind::Report),
];
