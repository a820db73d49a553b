//! Laws of the root.
ghost use Rattle.vk_resolution.specs.RootLaws.{NamedMeans, OffListIsOne, RootFactsMean};
ghost use Rattle.vk_resolution.specs.RootLaws.{RootFeaturesAreNeeded};

/// What all else follows from is the root's need of `core`, of the features of the words, and of
/// `default` unless it is switched off.
/// The features of the root that are needed are those that are asked of it.
pub fn the_root_is_asked_what_it_says()
    ensures facts { RootFactsMean }
    ensures needed { RootFeaturesAreNeeded }
{}

/// The root names the other instances that its asked features depend on, and a setting has one
/// list of those whose default features are off.
pub fn the_root_names_what_it_depends_on()
    ensures named { NamedMeans }
    ensures off { OffListIsOne }
{}
