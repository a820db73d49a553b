//! Who has requirements, by borrowed names.
ghost use Rattle.std.specs.Prelude.{◌≡◌, IfOk};
ghost use Rattle.vk_resolution.specs.Settings as plain;
ghost use Rattle.vk_model.specs.FactViews.{who_view};
ghost use Rattle.vk_model.specs.SettingViews.{instance_view};
ghost use Rattle.vk_root.specs.Requirers.{requirer_view};

use vk_base::{Instance, Memory, PortName, TripletName};
use vk_model::Who;

/// Who has requirements, by borrowed names: the root for a triplet, or a port for a triplet.
#[derive(Clone, Copy, Drop)]
pub enum Requirer<'a> {
    Root(&'a TripletName),
    Inst(&'a PortName, &'a TripletName),
}

impl<'a> Requirer<'a> {
    pub fn of(who: &'a Who) -> Requirer<'a>
        ensures { requirer_view result ≡ who_view who.now }
    {
        match who {
            Who::Root(triplet) => Requirer::Root(triplet),
            Who::Inst(inst) => Requirer::of_instance(inst),
        }
    }

    pub fn of_instance(inst: &'a Instance) -> Requirer<'a>
        ensures { requirer_view result ≡ plain.inst (instance_view inst.now) }
    {
        Requirer::Inst(&inst.port, &inst.triplet)
    }

    /// The triplet of who has requirements.
    pub fn triplet(self) -> &'a TripletName
        ensures { result.now ≡ plain.triplet_of (requirer_view self.entry) }
    {
        match self {
            Requirer::Root(triplet) => triplet,
            Requirer::Inst(_, triplet) => triplet,
        }
    }

    /// The same with names of its own.
    pub fn to_owned(self) -> Result<Who, Memory>
        ensures { IfOk result (λ who. who_view who ≡ requirer_view self.entry) }
    {
        match self {
            Requirer::Root(triplet) => Ok(Who::Root(triplet.clone()?)),
            Requirer::Inst(port, triplet) => Ok(Who::Inst(Instance {
                port: port.clone()?,
                triplet: triplet.clone()?,
            })),
        }
    }
}
