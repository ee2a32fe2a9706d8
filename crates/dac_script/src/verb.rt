//! The first word of a line, and the roles of the others.

ghost use Rattle.std.specs.Prelude.{◌≡◌};
ghost use Rattle.dac_script.specs.Verbs.{ask_of, verb_of};
ghost use Rattle.dac_script.specs.LineFaults.{ask_roles, roles_of, AreDistinct};

/// The first word of a request.
#[derive(Clone, Copy, Debug, PartialEq, Eq)]
pub(crate) enum Ask {
    Boot,
    Crash,
    Tick,
    Down,
    Permit,
    Start,
    Stop,
    Drain,
    Takeover,
}

/// The first word of a line of `sim`.
#[derive(Clone, Copy, Debug, PartialEq, Eq)]
pub(crate) enum Verb {
    Ask(Ask),
    Ship,
    Hear,
    Hand,
    Share,
    Page,
    State,
    Same,
    Bytes,
    Feed,
}

/// The role of a word. No role occurs twice in a line.
#[derive(Clone, Copy, Debug, PartialEq, Eq)]
pub(crate) enum Role {
    /// The node at which the line acts, which must be configured.
    Actor,
    /// A second node that must be configured.
    Other,
    /// The application concerned, configured or not.
    Application,
    /// The node concerned, configured or not.
    About,
    /// A decimal number.
    Number,
    /// `true` or `false`.
    Flag,
    /// Bytes in hexadecimal digits.
    Hex,
}

/// Parses the first word of a request.
pub(crate) fn ask_of(word: &[u8]) -> Option<Ask>
    ensures { result ≡ ask_of word.now }
{
    if word == b"boot".as_slice() {
        Some(Ask::Boot)
    } else if word == b"crash".as_slice() {
        Some(Ask::Crash)
    } else if word == b"tick".as_slice() {
        Some(Ask::Tick)
    } else if word == b"down".as_slice() {
        Some(Ask::Down)
    } else if word == b"permit".as_slice() {
        Some(Ask::Permit)
    } else if word == b"start".as_slice() {
        Some(Ask::Start)
    } else if word == b"stop".as_slice() {
        Some(Ask::Stop)
    } else if word == b"drain".as_slice() {
        Some(Ask::Drain)
    } else if word == b"takeover".as_slice() {
        Some(Ask::Takeover)
    } else {
        None
    }
}

/// Parses the first word of a line.
pub(crate) fn verb_of(word: &[u8]) -> Option<Verb>
    ensures { result ≡ verb_of word.now }
{
    if word == b"ship".as_slice() {
        Some(Verb::Ship)
    } else if word == b"hear".as_slice() {
        Some(Verb::Hear)
    } else if word == b"hand".as_slice() {
        Some(Verb::Hand)
    } else if word == b"share".as_slice() {
        Some(Verb::Share)
    } else if word == b"page".as_slice() {
        Some(Verb::Page)
    } else if word == b"state".as_slice() {
        Some(Verb::State)
    } else if word == b"same".as_slice() {
        Some(Verb::Same)
    } else if word == b"bytes".as_slice() {
        Some(Verb::Bytes)
    } else if word == b"feed".as_slice() {
        Some(Verb::Feed)
    } else {
        Some(Verb::Ask(ask_of(word)?))
    }
}

/// The roles of a request's other words.
pub(crate) fn ask_roles(ask: Ask) -> &'static [Role]
    ensures roles { result.now ≡ ask_roles ask }
    ensures distinct { AreDistinct result.now }
{
    match ask {
        Ask::Boot | Ask::Tick => &[Role::Actor, Role::Number],
        Ask::Crash => &[Role::Actor],
        Ask::Down => &[Role::Actor, Role::About],
        Ask::Permit => &[Role::Actor, Role::Application, Role::About, Role::Flag],
        Ask::Start | Ask::Stop => &[Role::Actor, Role::Application, Role::About],
        Ask::Drain => &[Role::Actor, Role::About, Role::Flag],
        Ask::Takeover => &[Role::Actor, Role::Application],
    }
}

/// The roles of the other words of a line.
pub(crate) fn roles_of(verb: Verb) -> &'static [Role]
    ensures roles { result.now ≡ roles_of verb }
    ensures distinct { AreDistinct result.now }
{
    match verb {
        Verb::Ask(ask) => ask_roles(ask),
        Verb::Ship => &[Role::Actor, Role::About],
        Verb::Hear | Verb::Hand => &[Role::Actor, Role::Number],
        Verb::Share => &[],
        Verb::Page | Verb::State => &[Role::Actor],
        Verb::Same => &[Role::Actor, Role::Other],
        Verb::Bytes => &[Role::Number],
        Verb::Feed => &[Role::Hex],
    }
}
