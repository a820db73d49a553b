//! Worked projects, as they are printed.
ghost use Rattle.std.specs.Prelude.{◌∷◌, [], codes};
ghost use Rattle.vk_resolution.specs.Printouts.{Prints, Tells};
ghost use Rattle.vk_resolution.specs.Printouts.{overridden_printed, raised_minimum_printed};
ghost use Rattle.vk_resolution.specs.Printouts.{realistic_told, single_line};
ghost use Rattle.vk_resolution.specs.Projects.{conflict, cycle, damaged_manifest, dropped_feature};
ghost use Rattle.vk_resolution.specs.Projects.{new_feature};
ghost use Rattle.vk_resolution.specs.Projects.{overridden};
ghost use Rattle.vk_resolution.specs.Projects.{raised_minimum};
ghost use Rattle.vk_resolution.specs.Projects.{realistic};
ghost use Rattle.vk_resolution.specs.Projects.{unsupported_port};

/// Two reports, byte for byte: a raised minimum, and an override.
pub fn reports_are_printed()
    ensures raised { Prints raised_minimum raised_minimum_printed }
    ensures overridden { Prints overridden overridden_printed }
{}

/// The lines of plans: port, triplet, version, the line of the chosen floor, and the features.
pub fn plans_are_printed()
    ensures realistic { Tells realistic realistic_told 29 }
    ensures feature { Tells new_feature
        (codes "1 a x64-linux 2.0#0 15 core,x" ∷ codes "2 c x64-linux 1#0 9 core" ∷ []) 18 }
{}

/// A line of each phase of faults.
pub fn faults_are_printed()
    ensures manifest { Tells damaged_manifest
        (single_line (codes "bad-file reg/ports/a/1.0/vcpkg.json - json 6")) 7 }
    ensures conflict { Tells conflict (single_line (codes "conflict s alpha#0 16 beta#0 15")) 20 }
    ensures feature { Tells dropped_feature (single_line (codes "no-feature a x64-linux x 2.0#0 5"))
        18 }
    ensures port { Tells unsupported_port (single_line (codes "unsupported b x64-linux core 2#0 3"))
        7 }
    ensures cycle { Tells cycle (single_line (codes "cycle a x64-linux b x64-linux c x64-linux"))
        17 }
{}
