//! The law of states and their bytes, as the contract of a function without effect.
//!
//! A proof that needs it calls the function.
ghost use Rattle.dac_bytes.specs.Takes.{IsCodec};
ghost use Rattle.dac_bytes.specs.declared.version.Version.{Version};
ghost use Rattle.dac_state.specs.StateForm.{IsInForm};
ghost use Rattle.dac_state.specs.StateReading.{parts_at};
ghost use Rattle.dac_state.specs.StateSpelling.{state_bytes};

use dac_part_bytes::Config;
use dac_part_bytes::laws::parts_have_one_spelling;

/// States have a codec under a configuration, in each version: a state that is read is well-formed and has the bytes
/// read as its spelling, and each well-formed state is read from its spelling, whatever follows.
pub fn states_have_one_spelling(config: &Config)
    ensures { (version : Version)
        → IsCodec (parts_at version config.now) (state_bytes version)
        (IsInForm version config.now) }
{
    parts_have_one_spelling(config);
}
