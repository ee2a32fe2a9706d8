//! The two ends of a link.

ghost use Rattle.std.specs.Prelude.{◌≡◌, ◌<◌, true, [], ◌∷◌, ◌++◌, IfOk, MatchResult};
ghost use Rattle.crossbeam_channel.specs.Claims.{view, IsSeatAt};
ghost use Rattle.crossbeam_channel.specs.Ends.{sends_on, receives_on, ruled_capacity};
ghost use Rattle.dac_links.specs.Relay.{StartsWith};

use crate::letter::Letter;
use crate::rule::{InOrder, Log, Put, Roles, Took, Whole};
use crossbeam_channel::{Pass, RuledReceiver, RuledSender, bounded_with};
use std::alloc::{AllocError, Global};
use std::sync::Wait;

/// The other end of the link was dropped.
#[derive(Clone, Copy, Debug, PartialEq, Eq)]
pub struct Gone;

/// The end at which a thread sends letters.
#[derive(Drop)]
pub struct LinkSender {
    /// The channel's sending end.
    pub end: RuledSender<Letter, Log, InOrder>,
    /// Permits sending, and records the letters sent, for contracts.
    pub pass: Pass<Letter, Log>,
    ghost seated: { IsSeatAt (sends_on end) pass },
    ghost may: { (view pass).puts ≡ true },
}

/// The end at which a thread receives letters.
#[derive(Drop)]
pub struct LinkReceiver {
    /// The channel's receiving end.
    pub end: RuledReceiver<Letter, Log, InOrder>,
    /// Permits receiving, and records the letters received, for contracts.
    pub pass: Pass<Letter, Log>,
    ghost seated: { IsSeatAt (receives_on end) pass },
    ghost may: { (view pass).takes ≡ true },
}

/// An empty link that holds up to `room` letters, as its two ends. Fails only if an allocation does.
pub fn link(alloc: Global, room: usize) -> Result<(LinkSender, LinkReceiver), AllocError>
    requires { 0 < room }
    ensures one { IfOk result (λ r. receives_on r.1.end ≡ sends_on r.0.end) }
    ensures room { IfOk result (λ r. ruled_capacity (sends_on r.0.end) ≡ room) }
    ensures empty { IfOk result (λ r. ((view r.0.pass).put ≡ []) × ((view r.1.pass).taken ≡ [])) }
{
    let (sender, receiver, mut pass) = bounded_with::<Letter, Log, InOrder, Global>(alloc, room)?;
    let other = sender.another::<Roles>(&mut pass);
    let sender = LinkSender { end: sender, pass };
    let receiver = LinkReceiver {
        end: receiver,
        pass: other,
    };
    Ok((sender, receiver))
}

impl LinkSender {
    /// Sends a letter; waits while the link is full. At `Err` nothing was sent.
    pub fn put<R: Wait>(&mut self, rt: &R, letter: Letter) -> Result<(), Gone>
        ensures link { sends_on self.new.end ≡ sends_on self.old.end }
        ensures put { MatchResult result
            (λ _. (view self.new.pass).put ≡ (view self.old.pass).put ++ letter ∷ [])
            (λ _. (view self.new.pass).put ≡ (view self.old.pass).put) }
    {
        let LinkSender { end, pass } = self;
        match end.send_as::<Put, R>(rt, pass, letter) {
            Ok(()) => Ok(()),
            Err(_) => Err(Gone),
        }
    }

    /// Proves that the letters received are a prefix of those sent. Both ends stay unchanged.
    pub fn compare(&mut self, receiver: LinkReceiver) -> LinkReceiver
        requires { receives_on receiver.end ≡ sends_on self.old.end }
        ensures link { (sends_on self.new.end ≡ sends_on self.old.end)
            × (receives_on result.end ≡ receives_on receiver.end) }
        ensures same { ((view self.new.pass).put ≡ (view self.old.pass).put)
            × ((view result.pass).taken ≡ (view receiver.pass).taken) }
        ensures beginning { StartsWith (view self.old.pass).put (view receiver.pass).taken }
    {
        let LinkSender { end, pass } = self;
        let LinkReceiver {
            end: from,
            pass: other,
        } = receiver;
        end.absorb::<Roles>(pass, other);
        end.learn_as::<Whole>(pass);
        let other = end.another::<Roles>(pass);
        LinkReceiver {
            end: from,
            pass: other,
        }
    }
}

impl LinkReceiver {
    /// Waits for the next letter and receives it. At `Err` nothing was received.
    pub fn take<R: Wait>(&mut self, rt: &R) -> Result<Letter, Gone>
        ensures link { receives_on self.new.end ≡ receives_on self.old.end }
        ensures taken { MatchResult result
            (λ x. (view self.new.pass).taken ≡ (view self.old.pass).taken ++ x ∷ [])
            (λ _. (view self.new.pass).taken ≡ (view self.old.pass).taken) }
    {
        let LinkReceiver { end, pass } = self;
        match end.recv_as::<Took, R>(rt, pass) {
            Ok(letter) => Ok(letter),
            Err(_) => Err(Gone),
        }
    }
}
