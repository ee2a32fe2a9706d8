//! The invariant of a link.

use crate::letter::Letter;
use crossbeam_channel::protocol::{Join, Lesson, Outcome, Protocol, Split};
use std::collections::LinkedList;

/// Permissions of a pass, and the letters that went through it. Only contracts use it: no value of it is made.
pub struct Log {
    /// Whether the pass permits sending.
    pub puts: bool,
    /// Whether the pass permits receiving.
    pub takes: bool,
    /// The letters sent, oldest first.
    pub put: LinkedList<Letter>,
    /// The letters received, oldest first.
    pub taken: LinkedList<Letter>,
}

/// The protocol of a link: FIFO, each letter once.
pub struct InOrder;

impl Protocol<Letter, Log> for InOrder {
    ghost use Rattle.std.specs.Prelude.{true, []};
    ghost use Rattle.dac_links.specs.Relay.{log, Relayed};

    ghost holds = { Relayed };

    ghost first = { log true true [] [] };
}

/// Splits the first pass into one for sending and one for receiving, and joins them again.
pub(crate) struct Roles;

impl Split<Log> for Roles {
    ghost use Rattle.std.specs.Prelude.{true, false, []};
    ghost use Rattle.dac_links.specs.Relay.{log};

    ghost left = { λ v. log true false v.put [] };

    ghost right = { λ v. log false true [] v.taken };
}

impl Join<Log> for Roles {
    ghost use Rattle.std.specs.Prelude.{true, false, []};
    ghost use Rattle.dac_links.specs.Relay.{log};

    ghost both = { λ v w. log true true v.put w.taken };

    ghost spent = { log false false [] [] };
}

/// A letter was sent.
pub(crate) struct Put;

impl Outcome<Letter, Log> for Put {
    ghost use Rattle.std.specs.Prelude.{◌≡◌, [], ◌∷◌, ◌++◌};
    ghost use Rattle.dac_links.specs.Relay.{log};

    ghost then = { λ v x w. w ≡ log v.puts v.takes (v.put ++ x ∷ []) v.taken };
}

impl Lesson<Letter, Log> for Put {
    ghost fact = { λ v items. Unit {0} };
}

/// A letter was received.
pub(crate) struct Took;

impl Outcome<Letter, Log> for Took {
    ghost use Rattle.std.specs.Prelude.{◌≡◌, [], ◌∷◌, ◌++◌};
    ghost use Rattle.dac_links.specs.Relay.{log};

    ghost then = { λ v x w. w ≡ log v.puts v.takes v.put (v.taken ++ x ∷ []) };
}

impl Lesson<Letter, Log> for Took {
    ghost fact = { λ v items. Unit {0} };
}

/// The letters sent are those received, followed by those in the channel.
pub(crate) struct Whole;

impl Lesson<Letter, Log> for Whole {
    ghost use Rattle.std.specs.Prelude.{◌≡◌, ◌++◌};

    ghost fact = { λ v items. v.put ≡ v.taken ++ items };
}
