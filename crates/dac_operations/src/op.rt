//! Operations, and the rules for them.
ghost use Rattle.std.specs.Prelude.{◌≡◌, ◌↔◌, IfOk, IsOk, IsTrue, MatchOption, Ok, Err};
ghost use Rattle.std.specs.Ordering.{is_lt};
ghost use Rattle.dac_origins.specs.Dots.{dot_cmp};
ghost use Rattle.dac_origins.specs.Keys.{is_rising, has_key};
ghost use Rattle.dac_operations.specs.Operations.{fault_of, has_bad_over, is_on_self, operation, IsSound};

use crate::act::Act;
use dac_base::{MAX_REPLACED, NoMemory};
use dac_origins::Dot;
use std::marker::Model;
use thiserror::Error;

/// The reason why a dot and an act make no operation.
#[derive(Clone, Copy, Debug, PartialEq, Eq, Error)]
pub enum OpFault {
    /// The act replaces its own dot.
    #[error("an operation replaces itself")]
    OwnDot,
    /// The replaced dots aren't strictly ascending, or are more than 1,024.
    #[error("the replaced operations don't ascend or are too many")]
    BadOver,
    /// The counter is 1 and the act isn't an Up, or the act is an Up with another counter.
    #[error("counter 1 is that of the node's coming up, and of no other operation")]
    BadCounter,
    /// The act declares its issuer's node down.
    #[error("a node declares itself down")]
    OnSelf,
}

/// An operation: an act, and the dot that names it.
///
/// Its replaced dots ascend strictly, are at most 1,024 and exclude its own dot. Its counter is 1 exactly if its act is
/// an Up. It doesn't declare its own node down.
#[derive(Debug)]
pub struct Op {
    dot: Dot,
    act: Act,
}

/// Explicit, so that a proof treats each drop as one call.
impl Drop for Op {
    fn drop(self) {
        let Op {
            dot: _dot,
            act: _act,
        } = self;
    }
}

impl Model for Op {
    ghost use Rattle.dac_operations.specs.Operations.{Operation, IsSound};

    ghost Value = { Operation };

    ghost view = { λ a. record { dot = a.dot; act = a.act } };

    ghost invariant = { λ a. IsSound (record { dot = a.dot; act = a.act }) };
}

impl Op {
    /// The operation of a dot and an act, if they satisfy the rules of operations.
    ///
    /// Otherwise returns the first fault that holds, in the order of [`OpFault`], and drops the act.
    pub fn new(dot: Dot, act: Act) -> Result<Self, OpFault>
        ensures value { MatchOption (fault_of dot act) (result ≡ Ok (operation dot act))
            (λ why. result ≡ Err why) }
        ensures sound { IsOk result ↔ IsSound (operation dot act) }
    {
        match fault_in(dot, &act) {
            Some(why) => Err(why),
            None => Ok(Op { dot, act }),
        }
    }

    /// The dot that names the operation.
    pub fn dot(&self) -> Dot
        ensures { result ≡ self.now.dot }
    {
        self.dot
    }

    /// The effect of the operation.
    pub fn act(&self) -> &Act
        ensures { result.now ≡ self.now.act }
    {
        &self.act
    }

    /// Whether both operations are equal.
    pub fn equal(&self, other: &Self) -> bool
        ensures { IsTrue result ↔ (self.now ≡ other.now) }
    {
        self.dot == other.dot && self.act.equal(&other.act)
    }

    /// An equal operation.
    pub fn copy(&self) -> Result<Self, NoMemory>
        ensures { IfOk result (λ copied. copied ≡ self.now) }
    {
        let act = self.act.copy()?;
        Ok(Op { dot: self.dot, act })
    }

    /// States the rules for proofs; does nothing at run time.
    pub fn tells_invariant(&self)
        ensures { IsSound self.now }
    {
        let _dot = &self.dot;
    }
}

/// The first fault of a dot and an act, if any.
fn fault_in(dot: Dot, act: &Act) -> Option<OpFault>
    ensures { result ≡ fault_of dot act.now }
{
    let over = act.over();
    if names(over, dot) {
        return Some(OpFault::OwnDot);
    }
    if is_bad_over(over) {
        return Some(OpFault::BadOver);
    }
    if act.reports_up() != (dot.n == 1) {
        return Some(OpFault::BadCounter);
    }
    if is_on_self(dot, act) {
        return Some(OpFault::OnSelf);
    }
    None
}

/// Whether the list contains the dot.
fn names(dots: &[Dot], dot: Dot) -> bool
    ensures { result ≡ has_key dot_cmp dots.now dot }
{
    dots.iter().any(|named| dot.cmp(named).is_eq())
}

/// Whether the list isn't strictly ascending or is too long.
fn is_bad_over(dots: &[Dot]) -> bool
    ensures { result ≡ has_bad_over dots.now }
{
    !ascends(dots) || dots.len() > MAX_REPLACED
}

/// Whether the list is strictly ascending.
fn ascends(dots: &[Dot]) -> bool
    ensures { result ≡ is_rising dot_cmp dots.now }
{
    for i in 1..dots.len() {
        if !is_before(dots[i - 1], dots[i]) {
            return false;
        }
    }
    true
}

/// Whether the first dot is below the second.
fn is_before(first: Dot, second: Dot) -> bool
    ensures { result ≡ is_lt (dot_cmp first second) }
{
    first < second
}

/// Whether the act declares the dot's own node down.
fn is_on_self(dot: Dot, act: &Act) -> bool
    ensures { result ≡ is_on_self dot act.now }
{
    match act {
        Act::Down { node, inc: _ } => *node == dot.origin.node,
        _ => false,
    }
}
