//! Cycles: instances that depend on each other.
ghost use Rattle.std.specs.Prelude.{◌≡◌, ◌++◌, ◌∷◌, [], List, ℕ, IfOk, OnOk, map, option_map};
ghost use Rattle.vk_spec.specs.Settings as settings;
ghost use Rattle.vk_resolution.specs.Faults as plain;
ghost use Rattle.vk_resolution.specs.Lines.{fault_line};
ghost use Rattle.vk_model.specs.FaultViews.{fault_view};
ghost use Rattle.vk_model.specs.SettingViews.{instance_view};
ghost use Rattle.vk_report_reader.specs.Cycles.{IsWalk, cycle_fault, cycle_parts, walk_text};
ghost use Rattle.vk_report_reader.specs.Faults.{IsCycle, IsRightAnd};
ghost use Rattle.vk_forms.specs.Forms.{ReadsAs};
ghost use Rattle.vk_forms.specs.Names.{instance_of};

use std::alloc::Global;
use vk_base::{Instance, List, Memory, PortName, Text, TripletName};
use vk_forms::{Either, Form, Or, Port, Then, Triplet, Word};
use vk_model::Fault;

// Any text, as it stands.
#[derive(Drop)]
struct Rest;

impl Form for Rest {
    type Out = Text;

    ghost Plain = { List ℕ };

    ghost plain = { λ t. t };

    ghost prints = { λ f t. t };

    ghost is_right = { λ f t. Unit {0} };

    fn read(&self, alloc: Global, text: &str) -> Result<Option<Text>, Memory> {
        Ok(Some(Text::from_str(alloc, text)?))
    }
}

fn push_instance(
    walk: &mut List<Instance>,
    port: PortName,
    triplet: TripletName,
) -> Result<(), Memory>
    ensures { OnOk result (map instance_view walk.new ≡ map instance_view walk.old
        ++ instance_of port triplet ∷ []) }
{
    walk.push(Instance { port, triplet })?;
    Ok(())
}

// Reads the next instances, as many as there are.
fn read_walk(alloc: Global, text: &str) -> Result<Option<List<Instance>>, Memory>
    ensures { IfOk result (λ found. ReadsAs walk_text IsWalk text.now
        (option_map (map instance_view) found)) }
{
    let form = Or(Then(Port, Then(Triplet, Rest)), Then(Port, Triplet));
    let mut walk = List::new(alloc);
    let mut rest = Text::from_str(alloc, text)?;
    while let Some(next) = form.read(alloc, rest.as_str())? {
        match next {
            Either::One(first) => {
                let (port, (triplet, more)) = first;
                push_instance(&mut walk, port, triplet)?;
                rest = more;
            }
            Either::Other(last) => {
                let (port, triplet) = last;
                push_instance(&mut walk, port, triplet)?;
                return Ok(Some(walk));
            }
        }
    }
    Ok(None)
}

// Instances with blanks between, at least one.
#[derive(Drop)]
struct Walk;

impl Form for Walk {
    type Out = List<Instance>;

    ghost use Rattle.std.specs.Prelude.{List};

    ghost Plain = { List settings.Instance };

    ghost plain = { map instance_view };

    ghost prints = { λ f. walk_text };

    ghost is_right = { λ f. IsWalk };

    fn read(&self, alloc: Global, text: &str) -> Result<Option<List<Instance>>, Memory> {
        read_walk(alloc, text)
    }
}

fn cycle_fault(alloc: Global, parts: Either<(), ((), List<Instance>)>) -> Fault
    ensures { fault_view result ≡ cycle_fault (cycle_parts parts) }
{
    match parts {
        Either::One(_) => Fault::Cycle(List::new(alloc)),
        Either::Other(walk) => Fault::Cycle(walk.1),
    }
}

/// Instances that depend on each other.
#[derive(Drop)]
pub(crate) struct Cycle;

impl Form for Cycle {
    type Out = Fault;

    ghost Plain = { plain.Fault };

    ghost plain = { fault_view };

    ghost prints = { λ f. fault_line };

    ghost is_right = { λ f. IsRightAnd IsCycle };

    fn read(&self, alloc: Global, text: &str) -> Result<Option<Fault>, Memory> {
        let form = Or(Word("cycle"), Then(Word("cycle"), Walk));
        match form.read(alloc, text)? {
            Some(parts) => Ok(Some(cycle_fault(alloc, parts))),
            None => Ok(None),
        }
    }
}
