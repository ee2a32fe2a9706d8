//! Hash labels of messages and operations.

ghost use Rattle.std.specs.Prelude.{◌≡◌, ◌↔◌, ℕ, IsTrue};
ghost use Rattle.dac_weave.specs.Labels.{label as label_by};

use dac_messages::Message;
use dac_operations::Op;

/// An item with a hash label.
pub(crate) trait Labelled {
    /// The label in the model.
    ghost label_of: { Self → ℕ };

    /// The label, the same for equal items.
    fn label(&self) -> u64
        ensures { result ≡ label_of self.now };

    /// Returns whether the items are equal.
    fn is_same(&self, other: &Self) -> bool
        ensures { IsTrue result ↔ (self.now ≡ other.now) };
}

/// Combines a count, an acknowledged count, the incarnation of an origin, and a number for its node into one label.
fn label(count: u64, acked: u64, inc: u64, node: u16) -> u64
    ensures { result ≡ label_by count acked inc node }
{
    let rest = acked % 1_099_511_627_776 * 10_007 + (inc % 1_099_511_627_776 * 101 + node as u64);
    count % 1_099_511_627_776 * 1_000_003 + rest
}

impl Labelled for Message {
    ghost use Rattle.dac_weave.specs.Labels.{message_label};

    ghost label_of = { message_label };

    fn label(&self) -> u64 {
        let acked = match &self.ack {
            Some((_, count)) => *count,
            None => 0,
        };
        label(
            self.up_to,
            acked,
            self.from.inc,
            self.from.node.0 as u16 * 256 + self.to.0 as u16,
        )
    }

    fn is_same(&self, other: &Self) -> bool {
        self.equal(other)
    }
}

impl Labelled for Op {
    ghost use Rattle.dac_weave.specs.Labels.{operation_label};

    ghost label_of = { operation_label };

    fn label(&self) -> u64 {
        let dot = self.dot();
        label(dot.n, 0, dot.origin.inc, dot.origin.node.0 as u16)
    }

    fn is_same(&self, other: &Self) -> bool {
        self.equal(other)
    }
}
