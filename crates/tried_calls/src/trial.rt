//! A call made while allocations fail, and repeated.
use std::io::Print;

/// The outcome of a call.
#[derive(Clone, Copy, Debug, PartialEq, Eq)]
pub enum Said {
    /// It succeeded. The number identifies its result.
    Well(u64),
    /// It failed because an allocation failed.
    NoMemory,
    /// It had any other outcome.
    Other,
}

/// The fixture of a call.
pub trait Fixture: Drop {
    /// Makes the call.
    fn call(&mut self) -> Said;

    /// Returns whether all readers show the values from before the call.
    fn is_as_before(&self) -> bool;
}

/// The outcome of a trial.
#[derive(Clone, Copy, Debug, PartialEq, Eq)]
pub enum Came {
    /// The fixture couldn't be made.
    SetUp,
    /// The call succeeded, and none of its allocations failed.
    Well(u64),
    /// The call failed because an allocation failed, changed nothing, and succeeded the second time.
    Refused(u64),
    /// The trial had any other outcome.
    Wrong,
}

/// Makes the call again after an allocation failed.
fn made_again<B: Fixture>(fixture: &mut B) -> Came {
    if !fixture.is_as_before() {
        return Came::Wrong;
    }
    match fixture.call() {
        Said::Well(number) => Came::Refused(number),
        _ => Came::Wrong,
    }
}

/// Makes the call, and again if an allocation failed.
fn made<B: Fixture>(fixture: &mut B) -> Came {
    match fixture.call() {
        Said::Well(number) => Came::Well(number),
        Said::Other => Came::Wrong,
        Said::NoMemory => made_again(fixture),
    }
}

/// Prints the outcome, which ends the part of the output in which allocations are counted.
pub fn ended<T: Print>(rt: &T, came: Came) -> Came {
    match came {
        Came::SetUp => None,
        Came::Well(_) => print!(rt; "well ").ok(),
        Came::Refused(_) => print!(rt; "refused ").ok(),
        Came::Wrong => print!(rt; "wrong").ok(),
    };
    came
}

/// Makes the call, and again if an allocation failed. Allocations are counted after the printed colon. The outcome is
/// printed before the fixture is dropped.
pub fn try_call<T: Print, B: Fixture>(rt: &T, fixture: Option<B>) -> Came {
    let Some(mut fixture) = fixture else {
        return Came::SetUp;
    };
    print!(rt; ": ").ok();
    let came = made(&mut fixture);
    ended(rt, came)
}

/// A hash of bytes, which identifies a result.
pub fn sum_of(bytes: &[u8]) -> u64 {
    let mut sum = 0u64;
    for byte in bytes {
        sum = sum.wrapping_mul(31).wrapping_add(u64::from(*byte));
    }
    sum
}

/// The outcome of a call that returns bytes.
pub fn of_bytes<E: Drop>(answer: Result<Vec<u8>, E>) -> Said {
    match answer {
        Ok(bytes) => Said::Well(sum_of(bytes.as_slice())),
        Err(_) => Said::NoMemory,
    }
}

/// The outcome of a call whose value isn't compared.
pub fn of_any<T: Drop, E: Drop>(answer: Result<T, E>) -> Said {
    match answer {
        Ok(_) => Said::Well(0),
        Err(_) => Said::NoMemory,
    }
}

/// The number, or the greatest `u64` if it's greater.
pub fn short(number: u128) -> u64 {
    u64::try_from(number).unwrap_or(u64::MAX)
}
