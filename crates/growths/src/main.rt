//! Fault injection: every call that allocates, and forged states.
//!
//! Standard input selects what is tried:
//!
//! - `call NAME`, such as `call Config::copy`: one call of the table;
//! - `state` and the bytes of a state, which every call must accept.
//!
//! Without input all calls are made, and a line for each prints the outcome. `checks/growths` runs this program while
//! allocations fail.
#![tactic(auto)]

mod calls;
mod nodes;
mod runs;
mod sites;
mod worlds;

use crate::calls::{CALLS, try_listed};
use dac_state::State;
use std::alloc::Global;
use std::io::{Print, Read};
use std::sync::Wait;
use std::thread::Threads;
use tried_calls::sample::{Does, ME, config, meaning};
use tried_calls::trial::Came;
use tried_states::is_borne;

/// The first word of the input, and the rest.
fn word(text: &[u8]) -> (&[u8], &[u8]) {
    for i in 0..text.len() {
        if text[i] == b' ' || text[i] == b'\n' {
            return (&text[..i], &text[i + 1..]);
        }
    }
    (text, &text[text.len()..])
}

/// Prints the number of an outcome, after its word.
fn tell<T: Print>(rt: &T, came: Came) {
    match came {
        Came::SetUp => println!(rt; ": set-up").ok(),
        Came::Well(number) | Came::Refused(number) => println!(rt; "{number}").ok(),
        Came::Wrong => println!(rt; "").ok(),
    };
}

/// Tries the call with this name, or all calls if it's empty.
fn try_named<T: Print + Threads + Wait + Sync>(rt: &T, alloc: Global, name: &[u8]) {
    for i in 0..CALLS.len() {
        let (known, call) = CALLS[i];
        if name.is_empty() || name == known.as_bytes() {
            print!(rt; "{known}").ok();
            tell(rt, try_listed(rt, alloc, call));
        }
    }
}

/// Returns whether every call accepts the state of these bytes. `None` if they don't decode.
fn is_state_borne(alloc: Global, bytes: &[u8]) -> Option<bool> {
    let config = config(alloc)?;
    let state = State::decode(alloc, &config, bytes).ok()?;
    let up = meaning(alloc, ME, Does::Up)?;
    is_borne(alloc, &config, &state, &up)
}

fn main(rt: HostRuntime) {
    let mut buffer = [0u8; 4096];
    let count = rt.stdin().read(&mut buffer).unwrap_or(0);
    let (what, rest) = word(&buffer[..count.min(4096)]);
    if what == b"state".as_slice() {
        let is_borne = is_state_borne(rt.alloc(), rest) == Some(true);
        println!(rt; "borne {is_borne}").ok();
    } else {
        try_named(&rt, rt.alloc(), word(rest).0);
    }
}
