//! Facts, copied.
ghost use Rattle.std.specs.Prelude.{◌≡◌, IfOk};
ghost use Rattle.vk_base.specs.FeatureViews.{feature_view};
ghost use Rattle.vk_version.specs.AskViews.{ask_view};
ghost use Rattle.vk_resolution.specs.Asking as plain;
ghost use Rattle.vk_model.specs.FactViews.{fact_view, who_view};
ghost use Rattle.vk_model.specs.SettingViews.{instance_view};

use vk_base::{FeatureName, Instance, Memory, PortName};
use vk_model::{Fact, Who};
use vk_version::Ask;

fn copy_who(who: &Who) -> Result<Who, Memory>
    ensures { IfOk result (λ w. who_view w ≡ who_view who.now) }
{
    Ok(match who {
        Who::Root(triplet) => Who::Root(triplet.clone()?),
        Who::Inst(inst) => Who::Inst(inst.clone()?),
    })
}

fn need_of(who: &Who, feature: &FeatureName) -> Result<Fact, Memory>
    ensures { IfOk result (λ x.
        fact_view x ≡ plain.need (who_view who.now) (feature_view feature.now)) }
{
    let who = copy_who(who)?;
    let feature = feature.clone()?;
    Ok(Fact::Need { who, feature })
}

fn floor_of(port: &PortName, ask: &Ask) -> Result<Fact, Memory>
    ensures { IfOk result (λ x. fact_view x ≡ plain.floor port.now (ask_view ask.now)) }
{
    let port = port.clone()?;
    let ask = ask.clone()?;
    Ok(Fact::Floor { port, ask })
}

fn visit_of(inst: &Instance, feature: &FeatureName, ask: &Ask) -> Result<Fact, Memory>
    ensures { IfOk result (λ x. fact_view x
        ≡ plain.visit (instance_view inst.now) (feature_view feature.now) (ask_view ask.now)) }
{
    let inst = inst.clone()?;
    let feature = feature.clone()?;
    let ask = ask.clone()?;
    Ok(Fact::Visit { inst, feature, ask })
}

/// A copy of a fact.
pub(crate) fn copy_of(fact: &Fact) -> Result<Fact, Memory>
    ensures { IfOk result (λ x. fact_view x ≡ fact_view fact.now) }
{
    match fact {
        Fact::Need { who, feature } => need_of(who, feature),
        Fact::Floor { port, ask } => floor_of(port, ask),
        Fact::Visit { inst, feature, ask } => visit_of(inst, feature, ask),
    }
}
