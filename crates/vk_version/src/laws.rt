//! What follows from the definitions alone: each function's contract is a law, and its body is
//! empty.

ghost use Rattle.std.specs.Prelude.{◌≡◌, ◌≢◌, ◌<◌, ◌≤◌, ◌^◌, pos, ◌↔◌, ◌∷◌, [], ℕ, List, Some, Ok};
ghost use Rattle.std.specs.Prelude.{Err, IsTrue, false, if◌then◌else◌};
ghost use Rattle.std.specs.Fmt.{decimal};
ghost use Rattle.std.specs.List.{Contains, list_any};
ghost use Rattle.semver.specs.Order.{parts};
ghost use Rattle.semver.specs.Parse.{Parts, version_parts};
ghost use Rattle.jiff.specs.Words.{IsDate};
ghost use Rattle.vk_spec.specs.Versions.{Class, IsOrder, Version};
ghost use Rattle.vk_version.specs.ClassWords.{class_word};
ghost use Rattle.vk_spec.specs.Versions as plain;
ghost use Rattle.vk_version.specs.declared.faults.VersionFault.TheVariants as fault;
ghost use Rattle.vk_version.specs.Schemes as the;
ghost use Rattle.vk_version.specs.Texts.{IsPadded, IsPutTogether, IsWritten, all_fit, begins_tail};
ghost use Rattle.vk_version.specs.Texts.{build_in, is_dotted, is_relaxed, core_of, day_of, has_day};
ghost use Rattle.vk_version.specs.Texts.{is_number, later_numbers, later_parts, number_of};
ghost use Rattle.vk_version.specs.Texts.{numbers_in, pre_in, tail_of};
ghost use Rattle.vk_version.specs.Readings.{IsVersion, fault_under, fault_unless, reads_version};
ghost use Rattle.vk_version.specs.Orders.{AtMost, BothAre, Unrelated, at_most, numbers_of, pre_of};

/// A version is at most itself.
pub fn reflexive()
    ensures { (v : Version) → AtMost v v }
{}

/// What is at most a version is at most all that this one is at most.
pub fn transitive()
    ensures { (u v w : Version) → AtMost u v → AtMost v w → AtMost u w }
{}

/// Two versions that are at most each other are the same: class, text and port-version. It holds
/// of all plain data, whether or not a text can be read.
pub fn antisymmetric()
    ensures { (v w : Version) → AtMost v w → AtMost w v → v ≡ w }
{}

/// The test is an order on all plain versions, as the laws of resolution ask.
pub fn tests_are_an_order()
    ensures { IsOrder at_most }
{}

/// The test says what the relation says.
pub fn tested()
    ensures { (v w : Version) → IsTrue (at_most v w) ↔ AtMost v w }
{}

/// Versions of different classes are unrelated.
pub fn classes_apart()
    ensures { (v w : Version) → v.class ≢ w.class → Unrelated v w }
{}

/// Different texts of one precedence are unrelated, whatever their port-versions.
pub fn texts_apart()
    ensures dotted { (v w : Version) → BothAre plain.dot v w → numbers_of v ≡ numbers_of w
        → pre_of v ≡ pre_of w
        → v.text ≢ w.text → Unrelated v w }
    ensures strings { (v w : Version) → BothAre plain.text v w → v.text ≢ w.text → Unrelated v w }
{}

/// Two readable dates with the same day and numbers have the same text, so they are ordered by
/// their port-versions, and no two readable dates are unrelated.
pub fn dates_together()
    ensures related { (v w : Version) → IsVersion v → IsVersion w → BothAre plain.date v w
        → Unrelated v w → ⊥ }
    ensures ports { (v w : Version) → IsVersion v → IsVersion w → BothAre plain.date v w
        → day_of v.text ≡ day_of w.text → later_numbers v.text ≡ later_numbers w.text
        → v.port ≤ w.port → AtMost v w }
    ensures texts { (v w : Version) → IsVersion v → IsVersion w → BothAre plain.date v w
        → day_of v.text ≡ day_of w.text → later_numbers v.text ≡ later_numbers w.text
        → v.text ≡ w.text }
{}

/// A part that goes on after a leading zero is no number, so a text with one has no reading.
pub fn padded_numbers_are_refused()
    ensures relaxed { (text part : List ℕ) (port : ℕ) → IsPadded part
        → Contains (parts (core_of text)) part
        → reads_version the.relaxed text port ≡ Err fault.Shape }
    ensures semver { (text part : List ℕ) (port : ℕ) → IsPadded part
        → Contains (parts (core_of text)) part
        → reads_version the.semver text port ≡ Err fault.Shape }
    ensures date { (text part : List ℕ) (port : ℕ) → IsPadded part
        → Contains (later_parts text) part
        → reads_version the.date text port ≡ Err fault.Shape }
{}

/// A number of a version's text is written in the decimal digits of what it says, as those that
/// `vk_base::read_u64` reads, and every number of 64 bits is written so.
pub fn numbers_are_decimal()
    ensures digits { (text : List ℕ) → IsTrue (is_number text) → number_of text < 2 ^ 64
        → decimal (number_of text) ≡ text }
    ensures number { (n : ℕ) → n < 2 ^ 64 → IsTrue (is_number (decimal n)) }
    ensures value { (n : ℕ) → n < 2 ^ 64 → number_of (decimal n) ≡ n }
{}

/// Two texts of one number are the same text.
pub fn numbers_have_one_text()
    ensures { (one other : List ℕ) → IsTrue (is_number one) → IsTrue (is_number other)
        → number_of one < 2 ^ 64 → number_of one ≡ number_of other → one ≡ other }
{}

/// A text has the form of the relaxed scheme exactly where it is put together of numbers, a
/// pre-release and build metadata, of which the last two may be empty; and then it is so in one
/// way, by the parts that are read of it.
pub fn relaxed_form()
    ensures form { (text : List ℕ) → IsTrue (is_relaxed text) ↔ IsPutTogether text }
    ensures parts { (text : List ℕ) → IsTrue (is_relaxed text)
        → IsWritten text (core_of text) (pre_in (tail_of text)) (build_in (tail_of text)) }
    ensures one_way { (text core pre build : List ℕ) → IsWritten text core pre build
        → (core_of text ≡ core)
        × (pre_in (tail_of text) ≡ pre) × (build_in (tail_of text) ≡ build) }
{}

/// A text without `-` and `+` is a version of the relaxed scheme exactly where it is numbers joined
/// by dots, none of them too large.
pub fn relaxed_numbers()
    ensures { (text : List ℕ) → list_any begins_tail text ≡ false
        → fault_under the.relaxed text
        ≡ (if is_dotted text
        then fault_unless fault.Number (all_fit (numbers_in text))
        else Some fault.Shape) }
{}

/// What is a semantic version is the same version under the relaxed scheme.
pub fn semantic_is_relaxed()
    ensures { (text : List ℕ) (port : ℕ) (v : Version) → reads_version the.semver text port ≡ Ok v
        → reads_version the.relaxed text port ≡ Ok v }
{}

/// The days that a date may have are those of the calendar, in the years 0000 to 9999.
pub fn days()
    ensures { (year month day : ℕ) → year ≤ 9999 → IsTrue (has_day (year ∷ month ∷ day ∷ []))
        ↔ IsDate (pos year) (pos month) (pos day) }
{}

/// What the order compares of a semantic version is what the standard's reader finds in it.
pub fn semantic_parts()
    ensures numbers { (text : List ℕ) (found : Parts) → version_parts text ≡ Ok found
        → numbers_in (core_of text) ≡ found.0 ∷ found.1 ∷ found.2 ∷ [] }
    ensures pre_release { (text : List ℕ) (found : Parts) → version_parts text ≡ Ok found
        → pre_in (tail_of text) ≡ found.3 }
{}

/// Different classes have different words.
pub fn class_words()
    ensures { (c d : Class) → class_word c ≡ class_word d → c ≡ d }
{}
