//! The law of fields and parts, as the contract of a function without effect.
//!
//! A proof that needs it calls the function.
ghost use Rattle.dac_bytes.specs.declared.version.Version.{Version};
ghost use Rattle.dac_part_bytes.specs.PartCodecs.{PartCodecs};

use dac_bytes::laws::fields_have_one_spelling;
use dac_config::Config;

/// Fields and parts have codecs: a value that is read is well-formed and has the bytes read as its spelling, and each
/// well-formed value is read from its spelling, whatever follows.
pub fn parts_have_one_spelling(config: &Config)
    ensures { (version : Version) → PartCodecs version config.now }
{
    // For the prover: node numbers fit one byte, and application numbers two.
    let _nodes = config.nodes();
    let _apps = config.apps();
    fields_have_one_spelling();
}
