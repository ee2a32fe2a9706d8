//! Cursors: how far into each journal the merge is.

ghost use Rattle.std.specs.Prelude.{IfOk};
ghost use Rattle.std.specs.List.{AllZip};
ghost use Rattle.dac_weave.specs.Names.{Begins};

use crate::replay::valid_prefix;
use dac_base::NoMemory;
use dac_config::Config;
use dac_journal::Closed;
use std::alloc::Global;

/// How many records of a journal are placed, and how many agree with a replay of its node.
#[derive(Drop)]
pub(crate) struct Cursor {
    pub(crate) placed: usize,
    pub(crate) valid: usize,
}

/// A cursor at the start of each journal.
pub(crate) fn cursors_of(
    alloc: Global,
    config: &Config,
    journals: &[Closed],
) -> Result<Vec<Cursor>, NoMemory>
    ensures { IfOk result (λ cursors. AllZip (Begins config.now) journals.now cursors.items) }
{
    let mut cursors = Vec::new(alloc);
    for journal in journals {
        let valid = valid_prefix(alloc, config, journal)?;
        cursors.push(Cursor { placed: 0, valid })?;
    }
    Ok(cursors)
}
