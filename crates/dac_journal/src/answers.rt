//! Compares the results that nodes return for events.

ghost use Rattle.std.specs.Prelude.{◌≡◌, ◌≢◌, ◌↔◌, true, false, Err, IfErr, IsTrue, OnErr, OnOk};

use crate::record::Answer;
use dac_base::NoMemory;
use dac_events::Refusal;

/// Returns whether two results are equal.
pub fn same_answer(answer: &Answer, other: &Answer) -> bool
    ensures { IsTrue result ↔ (answer.now ≡ other.now) }
{
    match (answer, other) {
        (Ok(reply), Ok(other_reply)) => reply.equal(other_reply),
        (Err(why), Err(other_why)) => why == other_why,
        _ => false,
    }
}

/// Returns whether a refusal stands for a failed allocation.
pub fn is_no_memory(why: Refusal) -> bool
    ensures yes { result ≡ true → why ≡ Refusal.NoMemory }
    ensures no { result ≡ false → why ≢ Refusal.NoMemory }
{
    why == Refusal::NoMemory
}

/// Fails with [`NoMemory`] if the result stands for a failed allocation.
pub fn is_answered(answer: &Answer) -> Result<(), NoMemory>
    ensures ok { OnOk result (IfErr answer.now (λ why. why ≢ Refusal.NoMemory)) }
    ensures err { OnErr result (answer.now ≡ Err Refusal.NoMemory) }
{
    match answer {
        Ok(_) => Ok(()),
        Err(why) => {
            if is_no_memory(*why) {
                Err(NoMemory)
            } else {
                Ok(())
            }
        }
    }
}
