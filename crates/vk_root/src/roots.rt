//! The root, and the triplets that a plan is made for.
ghost use Rattle.std.specs.Prelude.{◌≡◌, bytes_eq};
ghost use Rattle.vk_resolution.specs.Settings.{marks_of, is_own, is_root, same_instance};
ghost use Rattle.vk_root.specs.Requirers.{requirer_view};
ghost use Rattle.vk_root.specs.Roots.{root_setting, name_view, instance_at, triplet_for};
ghost use Rattle.vk_root.specs.Roots.{at_root, is_on_root};
ghost use Rattle.vk_model.specs.Views.{dependency_view};

use crate::requirers::Requirer;
use vk_base::{PortName, TripletName};
use vk_expr::Marks;
use vk_model::{Dependency, Manifest};
use vk_triplet::{Triplet, native_rule};

/// A root manifest, with the triplets of the target and of the host.
#[derive(Clone, Copy, Drop)]
pub struct Root<'a> {
    pub manifest: &'a Manifest,
    pub target: &'a Triplet,
    pub host: &'a Triplet,
}

fn is_triplet(one: &TripletName, other: &TripletName) -> bool
    ensures { result ≡ bytes_eq one.now other.now }
{
    one == other
}

// Whether two ports for triplets are one instance.
fn is_instance(
    own: &PortName,
    own_triplet: &TripletName,
    port: &PortName,
    triplet: &TripletName,
) -> bool
    ensures { result ≡ same_instance (instance_at own.now own_triplet.now)
        (instance_at port.now triplet.now) }
{
    own == port && own_triplet == triplet
}

// Whether a port for a triplet is the root's own instance.
fn is_named(
    name: &Option<PortName>,
    own: &TripletName,
    port: &PortName,
    triplet: &TripletName,
) -> bool
    ensures { result ≡ is_root (name_view name.now) own.now (instance_at port.now triplet.now) }
{
    match name {
        Some(name) => name == port && own == triplet,
        None => false,
    }
}

impl<'a> Root<'a> {
    /// The marks that hold for the instances of a triplet.
    pub fn marks(self, triplet: &TripletName) -> &'a Marks
        ensures { result.now.names ≡ marks_of (root_setting self.entry) triplet.now }
    {
        native_rule();
        if is_triplet(triplet, self.host.name()) {
            return self.host.marks(true);
        }
        self.target.marks(false)
    }

    /// The triplet that a dependency is for.
    pub fn triplet_for(self, who: Requirer<'a>, host: bool) -> &'a TripletName
        ensures { result.now
            ≡ triplet_for (root_setting self.entry) (requirer_view who.entry) host }
    {
        if host {
            return self.host.name();
        }
        who.triplet()
    }

    /// Whether a port for a triplet is the instance of the one who depends.
    pub fn is_own(self, who: Requirer<'_>, port: &PortName, triplet: &TripletName) -> bool
        ensures { result ≡ is_own (root_setting self.entry) (requirer_view who.entry)
            (instance_at port.now triplet.now) }
    {
        match who {
            Requirer::Root(own) => is_named(&self.manifest.name, own, port, triplet),
            Requirer::Inst(own, own_triplet) => is_instance(own, own_triplet, port, triplet),
        }
    }

    /// The marks that hold for the root.
    pub fn own_marks(self) -> &'a Marks
        ensures { result.now.names ≡ marks_of (root_setting self.entry) self.entry.target.now.name }
    {
        self.marks(self.target.name())
    }

    /// The triplet that a dependency of the root is for.
    pub fn triplet_of(self, dependency: &Dependency) -> &'a TripletName
        ensures { result.now
            ≡ (at_root (root_setting self.entry) (dependency_view dependency.now)).triplet }
    {
        if dependency.host {
            return self.host.name();
        }
        self.target.name()
    }

    /// Whether a dependency of the root is on the root's own instance.
    pub fn is_on_itself(self, dependency: &Dependency) -> bool
        ensures { result ≡ is_on_root (root_setting self.entry) (dependency_view dependency.now) }
    {
        is_named(
            &self.manifest.name,
            self.target.name(),
            &dependency.name,
            self.triplet_of(dependency),
        )
    }
}
