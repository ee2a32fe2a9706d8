//! Refusals of a node.

ghost use Rattle.std.specs.Prelude.{◌≡◌};

use dac_base::NoMemory;
use std::fmt;

/// Why a node refuses an event. Causes are checked in the order of their numbers, the first that holds is returned, and
/// the node stays as before.
#[derive(Clone, Copy, Debug, PartialEq, Eq, Hash)]
pub enum Refusal {
    /// The node is off.
    Off,
    /// The node runs already.
    AlreadyOn,
    /// This node's own incarnation was declared down, as far as the node knows.
    DeclaredDown,
    /// The configuration has no such application.
    UnknownApp,
    /// The configuration has no such node.
    UnknownNode,
    /// A node can't ship to itself, hear itself or declare itself down.
    OnSelf,
    /// The node isn't in the application's list.
    NotInList,
    /// The moment is before the node's boot or last tick.
    MomentBack,
    /// The node knows no live incarnation of the node that the command names.
    NotLive,
    /// No start wish stands for the application at the node.
    NotStarted,
    /// The node isn't eligible for the application that it should take over.
    NotEligible,
    /// The application that should be taken over runs nowhere.
    NotRunning,
    /// The application runs here already.
    AlreadyHolder,
    /// The application runs at a node of an earlier group.
    LowerPriority,
    /// The message is for another node, or only for another incarnation of this node.
    NotForMe,
    /// The receiver has acknowledged everything, and no reply to it is due.
    UpToDate,
    /// The operation would replace more than 1,024 dots.
    TooManyDots,
    /// There is no greater term for a claim of the application.
    TermsUsedUp,
    /// This incarnation's counters of operations or its numbers of deltas are used up. A tick is counted as if it
    /// needed one of each for every application, and at least one.
    DotsUsedUp,
    /// The node has no greater incarnation number.
    IncarnationsUsedUp,
    /// An allocation failed.
    NoMemory,
}

impl Refusal {
    ghost use Rattle.dac_events.specs.Refusals.{number_of, name_of};

    /// Its number in the program's output, 1 to 21.
    pub fn number(self) -> u8
        ensures { result ≡ number_of self }
    {
        match self {
            Refusal::Off => 1,
            Refusal::AlreadyOn => 2,
            Refusal::DeclaredDown => 3,
            Refusal::UnknownApp => 4,
            Refusal::UnknownNode => 5,
            Refusal::OnSelf => 6,
            Refusal::NotInList => 7,
            Refusal::MomentBack => 8,
            Refusal::NotLive => 9,
            Refusal::NotStarted => 10,
            Refusal::NotEligible => 11,
            Refusal::NotRunning => 12,
            Refusal::AlreadyHolder => 13,
            Refusal::LowerPriority => 14,
            Refusal::NotForMe => 15,
            Refusal::UpToDate => 16,
            Refusal::TooManyDots => 17,
            Refusal::TermsUsedUp => 18,
            Refusal::DotsUsedUp => 19,
            Refusal::IncarnationsUsedUp => 20,
            Refusal::NoMemory => 21,
        }
    }

    /// Its name in the program's output, which is also what `Display` prints.
    pub fn name(self) -> &'static str
        ensures { result.now ≡ name_of self }
    {
        match self {
            Refusal::Off => "Off",
            Refusal::AlreadyOn => "AlreadyOn",
            Refusal::DeclaredDown => "DeclaredDown",
            Refusal::UnknownApp => "UnknownApp",
            Refusal::UnknownNode => "UnknownNode",
            Refusal::OnSelf => "OnSelf",
            Refusal::NotInList => "NotInList",
            Refusal::MomentBack => "MomentBack",
            Refusal::NotLive => "NotLive",
            Refusal::NotStarted => "NotStarted",
            Refusal::NotEligible => "NotEligible",
            Refusal::NotRunning => "NotRunning",
            Refusal::AlreadyHolder => "AlreadyHolder",
            Refusal::LowerPriority => "LowerPriority",
            Refusal::NotForMe => "NotForMe",
            Refusal::UpToDate => "UpToDate",
            Refusal::TooManyDots => "TooManyDots",
            Refusal::TermsUsedUp => "TermsUsedUp",
            Refusal::DotsUsedUp => "DotsUsedUp",
            Refusal::IncarnationsUsedUp => "IncarnationsUsedUp",
            Refusal::NoMemory => "NoMemory",
        }
    }
}

impl fmt::Display for Refusal {
    ghost use Rattle.std.specs.Prelude.{Some};
    ghost use Rattle.dac_events.specs.Refusals.{name_of};

    ghost output = { λ why. Some (name_of why) };

    fn fmt<W: fmt::Write>(&self, f: &mut fmt::Formatter<W>) -> fmt::Result {
        f.write_str(self.name())
    }
}

impl From<NoMemory> for Refusal {
    ghost use Rattle.std.specs.Prelude.{◌≡◌};
    ghost use Rattle.dac_events.specs.declared.refusal.Refusal.TheVariants.{NoMemory as WantOfMemory};

    ghost from_gives = { λ _ why. why ≡ WantOfMemory };

    fn from(_refused: NoMemory) -> Self {
        Refusal::NoMemory
    }
}
