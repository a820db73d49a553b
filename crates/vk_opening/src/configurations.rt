//! The configuration of a project.
ghost use Rattle.std.specs.Prelude.{◌≡◌, ◌∷◌, [], Err, Ok, false};
ghost use Rattle.vk_spec.specs.Reading.{Fails, Gives};
ghost use Rattle.vk_config.specs.Configs as plain;
ghost use Rattle.vk_config.specs.Readings.{config_of};
ghost use Rattle.vk_config.specs.Views.{config_view, embedded_view};
ghost use Rattle.vk_files.specs.Views.{held};
ghost use Rattle.vk_files.specs.Finds.{ReadsFrom};
ghost use Rattle.vk_base.specs.Stops.{fault_seen, has_failed, is_failure};
ghost use Rattle.vk_files.specs.StandingViews.{standing_view};
ghost use Rattle.vk_files.specs.Readings.{bad_at, early_of, or_told, standing_at, told_at};
ghost use Rattle.vk_model.specs.EarlyViews.{early_view};
ghost use Rattle.vk_opening.specs.Projects.{manifest_path, config_path};
ghost use Rattle.vk_opening.specs.Roots.{early_at};
ghost use Rattle.vk_opening.specs.Configurations.{only_of, embedded_in};
ghost use Rattle.vk_opening.specs.Views.{configuration_view, embedded_seen};
ghost use Rattle.vk_opening.specs.Configurations.{alone_in, config_by, config_in};

use crate::projects::{config_path, manifest_path};
use crate::roots::OwnConfiguration;
use std::alloc::Global;
use vk_base::{Stop, TreePath, Unread};
use vk_config::{Config, Embedded, read_config};
use vk_files::{Archive, FileReader, Standing};
use vk_json::{FileFault, Scratch};
use vk_model::Early;
use vk_tree::Tree;

// Reads a configuration file.
#[derive(Drop)]
struct ConfigFile;

impl FileReader for ConfigFile {
    type Out = Config;

    ghost Plain = { plain.Config };

    ghost plain = { config_view };

    ghost reads = { λ r. config_of };

    fn read(
        &self,
        alloc: Global,
        bytes: &[u8],
        _scratch: &mut Scratch,
    ) -> Result<Config, Unread<FileFault>> {
        read_config(alloc, bytes)
    }
}

// The configuration that counts, by what the root manifest has of it.
fn only_of(alloc: Global, embedded: Embedded) -> Result<Config, Stop<Early>>
    ensures given { Gives config_view (fault_seen early_view) result
        (only_of (embedded_view embedded)) }
    ensures calm { has_failed result ≡ false }
{
    match embedded {
        Embedded::Nothing => Ok(Config::new(alloc)),
        Embedded::One(config) => Ok(config),
        Embedded::Two => Err(Stop::Fault(Early::TwoConfigurations)),
    }
}

// A fault of the root manifest in a folder, told with the file.
fn bad_manifest(alloc: Global, folder: &TreePath, fault: FileFault) -> Stop<Early>
    ensures told { Fails {Y = plain.Embedded} (fault_seen early_view result)
        (Err (early_of (bad_at (manifest_path folder.now) fault))) }
    ensures calm { is_failure result ≡ false }
{
    let FileFault { place, why } = fault;
    match manifest_path(alloc, folder) {
        Ok(path) => Stop::Fault(Early::BadFile { path, place, why }),
        Err(memory) => {
            drop(place);
            Stop::Memory(memory)
        }
    }
}

// What the root manifest has of a configuration, its faults told at its file.
fn embedded_of(
    alloc: Global,
    folder: &TreePath,
    embedded: Result<Embedded, FileFault>,
) -> Result<Embedded, Stop<Early>>
    ensures given { Gives embedded_view (fault_seen early_view) result
        (or_told early_of (told_at (manifest_path folder.now) (embedded_seen embedded))) }
    ensures calm { has_failed result ≡ false }
{
    match embedded {
        Ok(embedded) => Ok(embedded),
        Err(fault) => Err(bad_manifest(alloc, folder, fault)),
    }
}

// The configuration in the root manifest.
fn embedded_in(
    alloc: Global,
    folder: &TreePath,
    own: OwnConfiguration,
) -> Result<Config, Stop<Early>>
    ensures given { Gives config_view (fault_seen early_view) result
        (embedded_in folder.now (configuration_view own)) }
    ensures calm { has_failed result ≡ false }
{
    only_of(alloc, embedded_of(alloc, folder, own.embedded)?)
}

// The configuration file's configuration.
fn config_file<T: Tree>(archive: &mut Archive<T>, folder: &TreePath) -> Result<Config, Stop<Early>>
    ensures { ReadsFrom early_view config_view result (early_at config_of (config_path folder.now))
        (λ f. config_path folder.now ∷ []) (held T.state archive.old) (held T.state archive.new) }
{
    let path = config_path(archive.alloc(), folder)?;
    archive.read(&path, &ConfigFile)
}

// The configuration file's configuration, unless the root manifest has one too.
fn alone_in<T: Tree>(
    archive: &mut Archive<T>,
    folder: &TreePath,
    own: &OwnConfiguration,
) -> Result<Config, Stop<Early>>
    ensures { ReadsFrom early_view config_view result
        (alone_in folder.now (configuration_view own.now)) (λ f. config_path folder.now ∷ [])
        (held T.state archive.old) (held T.state archive.new) }
{
    if own.is_there {
        return Err(Stop::Fault(Early::TwoConfigurations));
    }
    config_file(archive, folder)
}

// The configuration, by how its file stands.
fn config_by<T: Tree>(
    archive: &mut Archive<T>,
    standing: Standing,
    folder: &TreePath,
    own: OwnConfiguration,
) -> Result<Config, Stop<Early>>
    ensures { ReadsFrom early_view config_view result
        (config_by (standing_view standing) folder.now (configuration_view own))
        (λ f. config_path folder.now ∷ []) (held T.state archive.old) (held T.state archive.new) }
{
    match standing {
        Standing::Missing => embedded_in(archive.alloc(), folder, own),
        Standing::TooLong => {
            let config = config_file(archive, folder);
            drop(own);
            config
        }
        Standing::Readable => {
            let config = alone_in(archive, folder, &own);
            drop(own);
            config
        }
    }
}

// How the configuration file in a folder stands.
fn config_standing<T: Tree>(
    archive: &mut Archive<T>,
    folder: &TreePath,
) -> Result<Standing, Stop<Early>>
    ensures { ReadsFrom early_view standing_view result
        (λ f. Ok (standing_at (config_path folder.now) f)) (λ f. config_path folder.now ∷ [])
        (held T.state archive.old) (held T.state archive.new) }
{
    let path = config_path(archive.alloc(), folder)?;
    archive.standing(&path)
}

/// The configuration of the project in a folder, by what its root manifest has of one.
pub fn read_configuration<T: Tree>(
    archive: &mut Archive<T>,
    folder: &TreePath,
    own: OwnConfiguration,
) -> Result<Config, Stop<Early>>
    ensures { ReadsFrom early_view config_view result
        (config_in folder.now (configuration_view own)) (λ f. config_path folder.now ∷ [])
        (held T.state archive.old) (held T.state archive.new) }
{
    match config_standing(archive, folder) {
        Ok(standing) => config_by(archive, standing, folder, own),
        Err(stop) => {
            drop(own);
            Err(stop)
        }
    }
}
