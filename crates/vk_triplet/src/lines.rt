//! One line: nothing, or a command that sets a variable.
ghost use Rattle.std.specs.Prelude.{◌≡◌, ◌≤◌, ℕ, not, List, length, Option, Some, option_map};
ghost use Rattle.std.specs.List.{prefix_len, position};
ghost use Rattle.vk_triplet.specs.declared.triplets.Variable.{Variable};
ghost use Rattle.vk_triplet.specs.Lines.{Says};
ghost use Rattle.vk_triplet.specs.LineReadings.{past, after_byte, after_set, some_front};
ghost use Rattle.vk_triplet.specs.LineReadings.{quoted_value, value_at, blank_value, closed};
ghost use Rattle.vk_triplet.specs.LineReadings.{written_at, given_at, opened, set_at, is_done};
ghost use Rattle.vk_triplet.specs.LineReadings.{only_set, said_by};
ghost use Rattle.vk_triplet.specs.Views.{is_in, command_view, pair_view, cut_view};

/// What a byte may be part of.
#[derive(Clone, Copy)]
enum Kind {
    /// The space between words.
    Blank,
    /// A variable's name.
    Name,
    /// A value that stands bare.
    Bare,
    /// A value between double quotes.
    Quoted,
}

impl Kind {
    fn has(self, byte: u8) -> bool
        ensures { result ≡ is_in self byte }
    {
        match self {
            Kind::Blank => matches!(byte, b' ' | b'\t'),
            Kind::Name => byte.is_ascii_alphanumeric() || byte == b'_',
            Kind::Bare => {
                byte.is_ascii_graphic()
                    && !matches!(byte, b'"' | b'(' | b')' | b'#' | b';' | b'$' | b'\\')
            }
            Kind::Quoted => !matches!(byte, b'"' | b'\\' | b'$' | b'\n'),
        }
    }
}

/// A variable and the value that it is set to, as they stand in a line.
#[derive(Clone, Copy)]
pub(crate) struct Command<'a> {
    pub(crate) name: &'a [u8],
    pub(crate) value: &'a [u8],
}

/// Where the first byte stands that is of another kind.
fn other_at(kind: Kind, text: &[u8]) -> Option<usize>
    ensures { result ≡ position (λ b. not (is_in kind b)) text.now }
{
    text.iter().position(|byte| !kind.has(*byte))
}

/// How many bytes of this kind stand in front.
fn front_len(kind: Kind, text: &[u8]) -> usize
    ensures count { result ≡ prefix_len (is_in kind) text.now }
    ensures within { result ≤ length text.now }
{
    other_at(kind, text).unwrap_or(text.len())
}

/// What stands after the bytes of this kind.
fn past(kind: Kind, text: &[u8]) -> &[u8]
    ensures { result.now ≡ past (is_in kind) text.now }
{
    &text[front_len(kind, text)..]
}

/// One byte or more of this kind, and what stands after them.
fn some_front(kind: Kind, text: &[u8]) -> Option<(&[u8], &[u8])>
    ensures { option_map pair_view result ≡ some_front (is_in kind) text.now }
{
    match front_len(kind, text) {
        0 => None,
        at => Some(text.split_at(at)),
    }
}

/// What stands after this byte, where the text begins with it.
fn after_byte(byte: u8, text: &[u8]) -> Option<&[u8]>
    ensures { option_map (λ rest. rest.now) result ≡ after_byte byte text.now }
{
    match text {
        [first, rest @ ..] if *first == byte => Some(rest),
        _ => None,
    }
}

/// What stands after `set`, where the text begins with it in any case.
fn after_set(text: &[u8]) -> Option<&[u8]>
    ensures { option_map (λ rest. rest.now) result ≡ after_set text.now }
{
    match text.split_at_checked(3) {
        Some((word, rest)) if word.eq_ignore_ascii_case(b"set") => Some(rest),
        _ => None,
    }
}

/// After a double quote: the value up to the next one, and what stands after that.
fn quoted_value(text: &[u8]) -> Option<(&[u8], &[u8])>
    ensures { option_map pair_view result ≡ quoted_value text.now }
{
    let (value, rest) = text.split_at(front_len(Kind::Quoted, text));
    Some((value, after_byte(b'"', rest)?))
}

/// A value, quoted where a double quote stands, and what stands after it.
fn value_at(text: &[u8]) -> Option<(&[u8], &[u8])>
    ensures { option_map pair_view result ≡ value_at text.now }
{
    match after_byte(b'"', text) {
        Some(quoted) => quoted_value(quoted),
        None => some_front(Kind::Bare, text),
    }
}

/// Blanks, and then a value, and what stands after it.
fn blank_value(text: &[u8]) -> Option<(&[u8], &[u8])>
    ensures { option_map pair_view result ≡ blank_value text.now }
{
    let (_, written) = some_front(Kind::Blank, text)?;
    value_at(written)
}

/// What stands after a closing parenthesis and the blanks before it.
fn closed(text: &[u8]) -> Option<&[u8]>
    ensures { option_map (λ rest. rest.now) result ≡ closed text.now }
{
    after_byte(b')', past(Kind::Blank, text))
}

/// The value that is given after a name, and what stands after the closing parenthesis.
fn given_at(text: &[u8]) -> Option<(&[u8], &[u8])>
    ensures { option_map pair_view result ≡ given_at text.now }
{
    match closed(text) {
        Some(rest) => Some((b"", rest)),
        None => written_at(text),
    }
}

/// A value after blanks, and what stands after the closing parenthesis.
fn written_at(text: &[u8]) -> Option<(&[u8], &[u8])>
    ensures { option_map pair_view result ≡ written_at text.now }
{
    let (value, rest) = blank_value(text)?;
    Some((value, closed(rest)?))
}

/// What stands after `set`, a parenthesis and the blanks round it.
fn opened(text: &[u8]) -> Option<&[u8]>
    ensures { option_map (λ rest. rest.now) result ≡ opened text.now }
{
    let inside = after_byte(b'(', past(Kind::Blank, after_set(text)?))?;
    Some(past(Kind::Blank, inside))
}

/// A command, and what stands after it.
fn set_at(text: &[u8]) -> Option<(Command<'_>, &[u8])>
    ensures { option_map cut_view result ≡ set_at text.now }
{
    let (name, given) = some_front(Kind::Name, opened(text)?)?;
    let (value, rest) = given_at(given)?;
    Some((Command { name, value }, rest))
}

/// Whether nothing stands here but blanks and a comment.
fn is_done(text: &[u8]) -> bool
    ensures { result ≡ is_done text.now }
{
    match past(Kind::Blank, text) {
        [] => true,
        [first, ..] => *first == b'#',
    }
}

/// The command that a text is, with nothing after it but blanks and a comment.
fn only_set(text: &[u8]) -> Option<Command<'_>>
    ensures { option_map command_view result ≡ only_set text.now }
{
    let (command, rest) = set_at(text)?;
    if is_done(rest) {
        return Some(command);
    }
    None
}

/// What a line says: nothing, or a command; `None` exactly where it says neither.
pub(crate) fn said_by(line: &[u8]) -> Option<Option<Command<'_>>>
    ensures { option_map (option_map command_view) result ≡ said_by line.now }
{
    if is_done(line) {
        return Some(None);
    }
    let command = only_set(past(Kind::Blank, line))?;
    Some(Some(command))
}

/// What is found in a line, read from the left, is what the line says by the grammar, and nothing
/// else; so a line has at most one reading.
pub fn line_rule()
    ensures found { (line : List ℕ) (said : Option Variable) → said_by line ≡ Some said
        → Says line said }
    ensures only { (line : List ℕ) (said : Option Variable) → Says line said
        → said_by line ≡ Some said }
{}
