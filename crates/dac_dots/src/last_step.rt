//! Steps between the preparation of a change and the change.
ghost use Rattle.std.specs.Prelude.{◌≡◌, OnOk, OnErr};

use dac_base::NoMemory;

/// A change of a target for which another change waits. It is taken after everything that can fail in the other one, so
/// that both happen or neither.
pub trait LastStep<T> {
    /// What the step does to the target.
    ghost steps: { Self → T → T → Type 0 };

    /// Changes the target. After [`NoMemory`] it is unchanged.
    fn take(&self, target: &mut T) -> Result<(), NoMemory>
        ensures ok { OnOk result (steps self.now target.old target.new) }
        ensures err { OnErr result (target.new ≡ target.old) };
}
