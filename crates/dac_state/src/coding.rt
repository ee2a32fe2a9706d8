//! States as bytes.
ghost use Rattle.std.specs.Prelude.{◌≡◌, ◌++◌, IfOk};
ghost use Rattle.dac_state.specs.StateSpelling.{spelling_of, state_bytes};

use crate::state::State;
use dac_base::NoMemory;
use dac_bytes::{ByteWriter, Version};
use dac_part_bytes::{write_claims, write_drains, write_lives, write_permissions, write_wishes};

impl State {
    /// The bytes of the state in version 2: the dots heard, the dots known, the standing permits and start wishes, the
    /// lives, the claims, and the standing drains. Equal states have equal bytes.
    pub fn encode(&self) -> Result<Vec<u8>, NoMemory>
        ensures { IfOk result (λ bytes. bytes.items ≡ spelling_of self.now) }
    {
        let writer = ByteWriter::new(self.allocator());
        let whole = self.write(writer, Version::Two)?;
        Ok(whole.into_bytes())
    }

    /// Appends the bytes of the state in a version. Version 1 has no bytes for drains. A call that fails discards the
    /// writer.
    #[tactic(auto, unfolding(crate::specs::StateSpelling::state_bytes))]
    pub fn write(&self, writer: ByteWriter, version: Version) -> Result<ByteWriter, NoMemory>
        ensures { IfOk result (λ written. written ≡ writer ++ state_bytes version self.now) }
    {
        let dots = writer
            .write_context(version, self.heard())?
            .write_context(version, self.known())?;
        let permits = write_permissions(dots, version, &self.permissions())?;
        let wishes = write_wishes(permits, version, &self.wishes())?;
        let lives = write_lives(wishes, version, self.lives())?;
        let claims = write_claims(lives, version, self.claims())?;
        let whole = write_drains(claims, version, &self.drains())?;
        Ok(whole)
    }
}
