//! Reads a configuration text.
ghost use Rattle.std.specs.Prelude.{◌≡◌, ◌≢◌, IfErr, IfOk, MatchResult};
ghost use Rattle.dac_tokens.specs.declared.fault.FaultKind.TheVariants.{NoMemory};
ghost use Rattle.dac_tokens.specs.Gives.{Gives};
ghost use Rattle.dac_first_fault.specs.FirstFault.{IsFaultOf};
ghost use Rattle.dac_config.specs.Table.{Table};
ghost use Rattle.dac_config.specs.Says.{IsConfigOf};
ghost use Rattle.dac_config.specs.Reading.{config_at};

use crate::Config;
use dac_first_fault::read_draft;
use dac_tokens::ConfigFault;
use std::alloc::Global;

/// Reads a configuration from its text.
///
/// The text is a file of Erlang terms, as OTP's command line flag `-config` accepts it. Its section `kernel` contains
/// the parameters `distributed`, `permissions`, `sync_nodes_mandatory`, `sync_nodes_optional` and `sync_nodes_timeout`
/// of OTP's kernel manual. Other sections and parameters are parsed and ignored. The nodes are all names in node lists
/// and sync lists. Of several permissions for one application the first counts, and one for an application that isn't
/// listed is ignored.
///
/// # Errors
///
/// The first fault in text order, with its offset in bytes from 0, or `NoMemory` with offset 0.
pub fn read_config(alloc: Global, text: &[u8]) -> Result<Config, ConfigFault>
    // The text spells the returned configuration.
    ensures found { IfOk result (λ config. IsConfigOf text.now config) }
    // Any configuration that the text spells is returned, unless memory runs out.
    ensures only { (table : Table) → IsConfigOf text.now table
        → MatchResult result (λ config. config ≡ table) (λ fault. fault.kind ≡ NoMemory) }
    // The definition determines the fault, unless memory runs out.
    ensures exact { Gives (λ config. config) result (config_at text.now) }
    // The law of the first fault admits this fault, and no other of this text.
    ensures first { IfErr result (λ fault. fault.kind ≢ NoMemory → IsFaultOf text.now fault) }
    ensures memory { IfErr result (λ fault. fault.kind ≡ NoMemory → fault.at ≡ 0) }
{
    let mut draft = read_draft(alloc, text)?;
    let config = Config::of_draft(alloc, &mut draft)?;
    Ok(config)
}
