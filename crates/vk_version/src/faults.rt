//! What is wrong with a version text or with an ask.

/// Why a text is no version under its scheme, or no ask.
#[derive(Clone, Copy, Debug, PartialEq, Eq)]
pub enum VersionFault {
    /// It hasn't the scheme's form.
    Shape,
    /// It has the form, and a number in it is above its type's last value.
    Number,
    /// It has the form, and the calendar hasn't the day.
    Day,
}
