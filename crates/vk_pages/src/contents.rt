//! Readers of a registry's files.
ghost use Rattle.std.specs.Prelude.{List};
ghost use Rattle.vk_registry.specs.Baselines as plain_baseline;
ghost use Rattle.vk_registry.specs.Baselines.{baseline_by};
ghost use Rattle.vk_registry.specs.Tables as plain_table;
ghost use Rattle.vk_registry.specs.Tables.{table_of};

use std::alloc::Global;
use vk_base::{SharedText, Unread};
use vk_files::FileReader;
use vk_json::{Doc, FileFault, Scratch};
use vk_registry::{Baseline, Table, baseline_in, table_in};

/// Reads the baseline of this name in a baseline file.
#[derive(Drop)]
pub struct NamedBaseline<'a> {
    /// The name of the baseline that counts.
    pub name: &'a SharedText,
}

impl<'a> FileReader for NamedBaseline<'a> {
    type Out = Baseline;

    ghost Plain = { List plain_baseline.Entry };

    ghost plain = { λ b. b };

    ghost reads = { λ r. baseline_by r.name.now };

    fn read(
        &self,
        alloc: Global,
        bytes: &[u8],
        scratch: &mut Scratch,
    ) -> Result<Baseline, Unread<FileFault>> {
        let document = Doc::read(alloc, bytes, scratch)?;
        baseline_in(alloc, document.value(), self.name.as_str())
    }
}

/// Reads a port's versions file.
#[derive(Drop)]
pub struct PortTable;

impl FileReader for PortTable {
    type Out = Table;

    ghost Plain = { List plain_table.Row };

    ghost plain = { λ t. t };

    ghost reads = { λ r. table_of };

    fn read(
        &self,
        alloc: Global,
        bytes: &[u8],
        scratch: &mut Scratch,
    ) -> Result<Table, Unread<FileFault>> {
        let document = Doc::read(alloc, bytes, scratch)?;
        table_in(alloc, document.value())
    }
}
