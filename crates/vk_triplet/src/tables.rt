ghost use Rattle.std.specs.Prelude.{◌≡◌, ◌++◌, List, true, false, map, OnOk, IfOk, if◌then◌else◌};
ghost use Rattle.std.specs.List.{flat_map};
ghost use Rattle.vk_spec.specs.Settings.{with_native};
ghost use Rattle.vk_triplet.specs.declared.triplets.Variable.{Variable};
ghost use Rattle.vk_triplet.specs.TripletReadings.{sets, value_of};
ghost use Rattle.vk_triplet.specs.Marks.{AreMarks, marks_by, own_mark, native_mark, marks_of};
ghost use Rattle.vk_triplet.specs.RowViews.{row_view, texts_of};

use crate::triplets::Variable;
use std::alloc::Global;
use vk_base::{List, Memory, Text};
use vk_expr::Marks;

// A variable, a value, and the marks that hold where the variable has the value.
#[derive(Clone, Copy)]
struct Row(&'static str, &'static str, &'static [&'static str]);

const ARCHITECTURE: &str = "VCPKG_TARGET_ARCHITECTURE";

const SYSTEM: &str = "VCPKG_CMAKE_SYSTEM_NAME";

const LIBRARY: &str = "VCPKG_LIBRARY_LINKAGE";

const RUNTIME: &str = "VCPKG_CRT_LINKAGE";

const TABLE: [Row; 15] = [
    Row(ARCHITECTURE, "arm", &["arm32"]),
    Row(ARCHITECTURE, "arm64", &["arm"]),
    Row(ARCHITECTURE, "arm64ec", &["arm"]),
    Row(SYSTEM, "", &["windows"]),
    Row(SYSTEM, "WindowsStore", &["windows", "uwp"]),
    Row(SYSTEM, "MinGW", &["windows", "mingw"]),
    Row(SYSTEM, "Linux", &["linux"]),
    Row(SYSTEM, "Darwin", &["osx"]),
    Row(SYSTEM, "iOS", &["ios"]),
    Row(SYSTEM, "Android", &["android"]),
    Row(SYSTEM, "Emscripten", &["emscripten"]),
    Row(SYSTEM, "FreeBSD", &["freebsd"]),
    Row(SYSTEM, "OpenBSD", &["openbsd"]),
    Row(LIBRARY, "static", &["static"]),
    Row(RUNTIME, "static", &["staticcrt"]),
];

// The value after this line, where the one before it was this.
fn value_after<'a>(variable: &'a Variable, name: &str, value: &'a str) -> &'a str
    ensures { result.now ≡ (if sets name.now variable.now then variable.now.value else value.now) }
{
    if variable.name.is(name) {
        return variable.value.as_str();
    }
    value
}

// The value of a variable: that of the last line that sets it, and empty where it is never set.
fn value_of<'a>(vars: &'a [Variable], name: &str) -> &'a str
    ensures { result.now ≡ value_of name.now vars.now }
{
    let mut value = "";
    for variable in vars {
        value = value_after(variable, name, value);
    }
    value
}

// The marks of a row, where its variable has its value.
fn marks_by(vars: &[Variable], row: Row) -> &'static [&'static str]
    ensures { texts_of result.now ≡ marks_by vars.now (row_view row) }
{
    let Row(variable, value, marks) = row;
    if value_of(vars, variable) == value {
        return marks;
    }
    &[]
}

// Puts these marks at the end.
fn push_all(alloc: Global, names: &mut List<Text>, marks: &[&str]) -> Result<(), Memory>
    ensures { OnOk result (names.new ≡ names.old ++ texts_of marks.now) }
{
    for mark in marks {
        names.push(Text::from_str(alloc, mark)?)?;
    }
    Ok(())
}

// Puts the marks of these rows at the end.
fn push_rows(
    alloc: Global,
    names: &mut List<Text>,
    vars: &[Variable],
    rows: &[Row],
) -> Result<(), Memory>
    ensures { OnOk result (names.new
        ≡ names.old ++ flat_map (λ r. marks_by vars.now (row_view r)) rows.now) }
{
    for row in rows {
        push_all(alloc, names, marks_by(vars, *row))?;
    }
    Ok(())
}

// Puts the architecture itself at the end, unless it is empty or `native`.
fn push_own(alloc: Global, names: &mut List<Text>, architecture: &str) -> Result<(), Memory>
    ensures { OnOk result (names.new ≡ names.old ++ own_mark architecture.now) }
{
    if architecture.is_empty() || architecture == "native" {
        return Ok(());
    }
    push_all(alloc, names, &[architecture])
}

// Puts `native` at the end, where the triplet is the host triplet.
fn push_native(alloc: Global, names: &mut List<Text>, native: bool) -> Result<(), Memory>
    ensures { OnOk result (names.new ≡ names.old ++ native_mark native) }
{
    if native {
        return push_all(alloc, names, &["native"]);
    }
    Ok(())
}

// The marks of a triplet that sets these, by the last of them: its architecture first, then those
// of the table in its order, and `native` last where it is the host triplet.
fn marks_of(alloc: Global, vars: &[Variable], native: bool) -> Result<Marks, Memory>
    ensures { IfOk result (λ m. m.names ≡ marks_of vars.now native) }
{
    let mut names = List::new(alloc);
    push_own(alloc, &mut names, value_of(vars, ARCHITECTURE))?;
    push_rows(alloc, &mut names, vars, &TABLE)?;
    push_native(alloc, &mut names, native)?;
    Ok(Marks { names })
}

// The marks of a triplet where it isn't the host triplet, and where it is.
#[derive(Clone, Drop)]
pub(crate) struct BothMarks {
    pub(crate) other: Marks,
    pub(crate) native: Marks,
}

// Both, of a triplet that sets these.
pub(crate) fn both_marks(alloc: Global, vars: &[Variable]) -> Result<BothMarks, Memory>
    ensures { IfOk result (λ both. AreMarks vars.now both.other.names both.native.names) }
{
    Ok(BothMarks {
        other: marks_of(alloc, vars, false)?,
        native: marks_of(alloc, vars, true)?,
    })
}

/// What holds for the host triplet is what its file says, and `native` besides.
pub fn native_rule()
    ensures { (variables : List Variable)
        → marks_of variables true ≡ with_native (marks_of variables false) }
{}
