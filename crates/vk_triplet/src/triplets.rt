ghost use Rattle.std.specs.Prelude.{◌≡◌, ℕ, List, Err, ◌∷◌, ◌++◌, ◌+◌, ◌<◌, ◌≤◌, ◌^◌, ◌==◌, []};
ghost use Rattle.std.specs.Prelude.{length, Ok, OnOk, IfOk, IfSome, option_map, MatchOption};
ghost use Rattle.std.specs.List.{slice_split};
ghost use Rattle.std.specs.Option.{option_to_list};
ghost use Rattle.std.specs.Str.{IsUtf8};
ghost use Rattle.std.specs.Str.Lines.{strip_carriage_return};
ghost use Rattle.vk_spec.specs.Reading.{Gives};
ghost use Rattle.vk_base.specs.Stops.{fault_in};
ghost use Rattle.vk_triplet.specs.declared.triplets.Variable.{Variable};
ghost use Rattle.vk_triplet.specs.declared.faults.TripletFault.TheVariants as fault;
ghost use Rattle.vk_triplet.specs.Lines.{lines_of};
ghost use Rattle.vk_triplet.specs.Marks.{marks_of};
ghost use Rattle.vk_triplet.specs.TripletReadings.{line_said, variables_from, reads_triplet};
ghost use Rattle.vk_triplet.specs.TripletReadings.{triplet_of, triplet_with, value_of};
ghost use Rattle.vk_triplet.specs.FileLaws.{HasVariables, IsFirstUnread, IsSetLast, LeavesAlone};
ghost use Rattle.vk_triplet.specs.Views.{command_view, parts_in};

use crate::faults::TripletFault;
use crate::lines::{Command, said_by};
use crate::tables::{BothMarks, both_marks};
use std::alloc::{AllocError, AllocFailed, Global};
use std::marker::Model;
use std::str;
use vk_base::{List, Memory, Text, TripletName, Unread};
use vk_expr::Marks;

/// A variable and the value that a line of a triplet file sets it to.
#[derive(Clone, PartialEq, Eq, Drop)]
pub struct Variable {
    /// Its name.
    pub name: Text,
    /// Its value, without quotes.
    pub value: Text,
}

/// A triplet: a name, its file's bytes, and the variables that the file sets, which contracts see.
/// It keeps the marks of its variables.
#[derive(Drop)]
pub struct Triplet {
    name: TripletName,
    bytes: List<u8>,
    vars: List<Variable>,
    marks: BothMarks,
}

impl Model for Triplet {
    ghost use Rattle.vk_triplet.specs.Marks.{AreMarks};
    ghost use Rattle.vk_triplet.specs.TripletReadings.{Triplet, triplet_with};

    ghost Value = { Triplet };

    ghost view = { λ t. triplet_with t.name t.bytes t.vars };

    ghost invariant = { λ t. AreMarks t.vars t.marks.other.names t.marks.native.names };
}

impl Triplet {
    /// The name that asks for the file.
    pub fn name(&self) -> &TripletName
        ensures { result.now ≡ self.now.name }
    {
        &self.name
    }

    /// The file's bytes, as they are.
    pub fn bytes(&self) -> &[u8]
        ensures { result.now ≡ self.now.bytes }
    {
        self.bytes.as_slice()
    }

    /// The variables in the file's order. Of one that is set twice the last line counts.
    pub fn variables(&self) -> &[Variable]
        ensures { result.now ≡ self.now.variables }
    {
        self.vars.as_slice()
    }

    /// The marks that hold for what is built for this triplet: its architecture first, then those
    /// of the table in its order, and `native` last where it is the host triplet. Takes no memory.
    pub fn marks(&self, native: bool) -> &Marks
        ensures { result.now.names ≡ marks_of self.now.variables native }
    {
        if native {
            return &self.marks.native;
        }
        &self.marks.other
    }
}

impl Clone for Triplet {
    ghost is_clone = { λ t u. u ≡ t };

    fn clone(&self) -> Result<Triplet, AllocError> {
        Ok(Triplet {
            name: self.name.clone()?,
            bytes: self.bytes.clone()?,
            vars: self.vars.clone()?,
            marks: self.marks.clone()?,
        })
    }
}

/// A line without the carriage return at its end, if it has one.
fn without_return(line: &[u8]) -> &[u8]
    ensures { result.now ≡ strip_carriage_return line.now }
{
    match line {
        [front @ .., b'\r'] => front,
        _ => line,
    }
}

/// What stands before the first line feed, and what stands after it, if there is one.
fn cut_line(text: &str) -> (&str, Option<&str>)
    ensures whole { slice_split (λ b. b == 10) text.now ≡ result.0.now ∷ parts_in result.1 }
    ensures shorter { MatchOption result.1 (length result.0.now ≤ length text.now)
        (λ rest. length result.0.now + length rest.now + 1 ≤ length text.now) }
    ensures text { IfSome result.1 (λ rest. IsUtf8 rest.now) }
{
    match text.split_once('\n') {
        Some((line, rest)) => (line, Some(rest)),
        None => (text, None),
    }
}

/// A copy of bytes that are UTF-8.
fn text_of(alloc: Global, bytes: &[u8]) -> Result<Text, Unread<TripletFault>>
    requires { IsUtf8 bytes.now }
    ensures { Gives (λ t. t) fault_in result (Ok bytes.now) }
{
    match str::from_utf8(bytes) {
        Ok(text) => Ok(Text::from_str(alloc, text)?),
        Err(_) => Err(Unread::Fault(TripletFault::NotText)),
    }
}

/// A copy of a command.
fn variable_of(alloc: Global, command: Command<'_>) -> Result<Variable, Unread<TripletFault>>
    requires name { IsUtf8 command.name.now }
    requires value { IsUtf8 command.value.now }
    ensures { Gives (λ v. v) fault_in result (Ok (command_view command.entry)) }
{
    Ok(Variable {
        name: text_of(alloc, command.name)?,
        value: text_of(alloc, command.value)?,
    })
}

/// What the line with this number says, which counts from 1.
fn read_line(alloc: Global, n: usize, line: &str) -> Result<Option<Variable>, Unread<TripletFault>>
    requires { 0 < length line.now → n < 2 ^ 32 }
    ensures { Gives (λ said. said) fault_in result (line_said n (strip_carriage_return line.now)) }
{
    let Some(said) = said_by(without_return(line.as_bytes())) else {
        return Err(Unread::Fault(TripletFault::Line { n: n as u32 }));
    };
    match said {
        Some(command) => Ok(Some(variable_of(alloc, command)?)),
        None => Ok(None),
    }
}

/// Puts a variable at the end, if there is one.
fn keep(vars: &mut List<Variable>, said: Option<Variable>) -> Result<(), AllocFailed<Variable>>
    ensures { OnOk result (vars.new ≡ vars.old ++ option_to_list said) }
{
    match said {
        Some(variable) => vars.push(variable),
        None => Ok(()),
    }
}

/// The variables of a text's lines, in order.
fn read_lines(alloc: Global, text: &str) -> Result<List<Variable>, Unread<TripletFault>>
    requires { length text.now < 2 ^ 32 }
    ensures { Gives (λ vars. vars) fault_in result (variables_from 1 (lines_of text.now)) }
{
    let mut vars = List::new(alloc);
    let mut left = text;
    let mut n = 1;
    'lines: loop {
        let (line, rest) = cut_line(left);
        let said = read_line(alloc, n, line)?;
        keep(&mut vars, said)?;
        match rest {
            Some(more) => left = more,
            None => return Ok(vars),
        }
        n += 1;
    }
}

/// Reads the file of a triplet of this name. `NotText` comes exactly where the bytes are no UTF-8;
/// else `Line` exactly where a line is neither empty nor a comment nor a `set` of the plain form,
/// with the first such line.
pub fn read(
    alloc: Global,
    name: &TripletName,
    bytes: &[u8],
) -> Result<Triplet, Unread<TripletFault>>
    requires { length bytes.now < 2 ^ 32 }
    ensures { Gives (λ t. t) fault_in result (triplet_of name.now bytes.now) }
{
    let Ok(text) = str::from_utf8(bytes) else {
        return Err(Unread::Fault(TripletFault::NotText));
    };
    let vars = read_lines(alloc, text)?;
    Ok(triplet_with(alloc, name, bytes, vars)?)
}

// The triplet of these, with the marks of its variables.
fn triplet_with(
    alloc: Global,
    name: &TripletName,
    bytes: &[u8],
    vars: List<Variable>,
) -> Result<Triplet, Memory>
    ensures { IfOk result (λ t. t ≡ triplet_with name.now bytes.now vars) }
{
    let marks = both_marks(alloc, vars.as_slice())?;
    let name = name.clone()?;
    let bytes = List::from_slice(alloc, bytes)?;
    Ok(Triplet {
        name,
        bytes,
        vars,
        marks,
    })
}

/// A file that is read has the variables that its lines say; a line that is told is the first that
/// has no reading, in bytes that are UTF-8; and no bytes that are UTF-8 are told as none.
pub fn triplet_rule()
    ensures variables { (bytes : List ℕ) (vars : List Variable) → reads_triplet bytes ≡ Ok vars
        → HasVariables bytes vars }
    ensures line { (bytes : List ℕ) (n : ℕ) → reads_triplet bytes ≡ Err (fault.Line n)
        → IsUtf8 bytes × IsFirstUnread (lines_of bytes) n }
    ensures not_text { (bytes : List ℕ) → reads_triplet bytes ≡ Err fault.NotText → IsUtf8 bytes
        → ⊥ }
{}

/// The value of a variable is that of the last line that sets it, and empty where none does.
pub fn value_rule()
    ensures last { (name value : List ℕ) (vars : List Variable) → IsSetLast name value vars
        → value_of name vars ≡ value }
    ensures never { (name : List ℕ) (vars : List Variable) → LeavesAlone name vars
        → value_of name vars ≡ [] }
{}
