//! What is asked of ports.
ghost use Rattle.std.specs.Prelude.{◌≡◌, ◌<◌, ◌^◌, None, IfOk, OnOk, length};
ghost use Rattle.vk_resolution.specs.Reasons.{facts_of};
ghost use Rattle.vk_model.specs.FactViews.{fact_view, reasons_view};
ghost use Rattle.vk_choices.specs.Asks.{HaveAsks, IsNoted};
ghost use Rattle.vk_choices.specs.Rows.{AreInOrder, HasOneMore, row_of};

use indexmap::IndexMap;
use std::alloc::Global;
use vk_base::{List, Memory, PortName};
use vk_model::{Fact, Reason};
use vk_version::Ask;

/// What a floor asks of its port, and the line of the floor, counted from 1.
#[derive(Drop)]
pub(crate) struct Asked<'a> {
    pub ask: &'a Ask,
    pub line: u32,
}

/// What is asked of each port that has floors, in the order of their lines.
pub(crate) type Rows<'a> = IndexMap<PortName, List<Asked<'a>>>;

// What is first asked of a port.
fn begin_row<'a>(
    alloc: Global,
    rows: &mut Rows<'a>,
    port: &PortName,
    asked: Asked<'a>,
) -> Result<(), Memory>
    requires { row_of rows.old.entries port.now ≡ None }
    ensures { OnOk result (HasOneMore port.now asked.entry rows.old.entries rows.new.entries) }
{
    let mut asks = List::new(alloc);
    asks.push(asked)?;
    drop(rows.insert(port.clone()?, asks)?);
    Ok(())
}

// What is asked of a port besides.
fn add_asked<'a>(
    alloc: Global,
    rows: &mut Rows<'a>,
    port: &PortName,
    asked: Asked<'a>,
) -> Result<(), Memory>
    ensures { OnOk result (HasOneMore port.now asked.entry rows.old.entries rows.new.entries) }
{
    match rows.get_mut(port) {
        Some(asks) => Ok(asks.push(asked)?),
        None => begin_row(alloc, rows, port, asked),
    }
}

// Notes the fact of a line, if it is a floor.
fn note_fact<'a>(
    alloc: Global,
    rows: &mut Rows<'a>,
    fact: &'a Fact,
    line: u32,
) -> Result<(), Memory>
    ensures { OnOk result (IsNoted (fact_view fact.now) line rows.old.entries rows.new.entries) }
{
    match fact {
        Fact::Need { .. } => Ok(()),
        Fact::Floor { port, ask } => add_asked(alloc, rows, port, Asked { ask, line }),
        Fact::Visit { .. } => Ok(()),
    }
}

// What the floors of these reasons ask.
fn noted(alloc: Global, reasons: &[Reason]) -> Result<Rows<'_>, Memory>
    requires { length reasons.now < 2 ^ 32 }
    ensures { IfOk result (λ rows. HaveAsks (facts_of (reasons_view reasons.now)) rows.entries) }
{
    let mut rows = IndexMap::new(alloc);
    let mut line = 0;
    for reason in reasons {
        line += 1;
        note_fact(alloc, &mut rows, &reason.fact, line)?;
    }
    Ok(rows)
}

/// What the floors of these reasons ask, in the order of ports.
pub(crate) fn asks_of(alloc: Global, reasons: &[Reason]) -> Result<Rows<'_>, Memory>
    requires { length reasons.now < 2 ^ 32 }
    ensures asks { IfOk result (λ rows. HaveAsks (facts_of (reasons_view reasons.now))
        rows.entries) }
    ensures ordered { IfOk result (λ rows. AreInOrder rows.entries) }
{
    let mut rows = noted(alloc, reasons)?;
    rows.sort_unstable_keys()?;
    Ok(rows)
}
