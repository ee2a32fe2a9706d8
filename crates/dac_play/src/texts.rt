//! The printed lines, each with its line feed.

ghost use Rattle.std.specs.Prelude.{◌≡◌, ◌≤◌, ◌*◌, ◌++◌, length, drop, IfOk, OnOk};
ghost use Rattle.std.specs.Fmt.{decimal};
ghost use Rattle.hex.specs.Hex.{encode_lower};
ghost use Rattle.dac_play.specs.Texts.{booted_text, crashed_text, held_text, gave_up_text, issued_text, shipped_text, shared_text, heard_text, no_message_text, no_operation_text, refused_text, same_text, hex_text, input_fault_text, script_fault_text, config_fault_text, failure_text};

use dac_base::NoMemory;
use dac_config::put_printed_name;
use dac_core::Body;
use dac_script::{Failure, InputFault, ScriptFault};
use dac_status::put_number;
use dac_tokens::ConfigFault;
use std::alloc::Global;

/// The initial capacity of a line. Most are shorter; longer ones grow it.
const ROOM: usize = 64;

/// The line for a failed allocation, which needs none itself.
pub const OUT_OF_MEMORY: &str = "out of memory\n";

/// Appends a number in decimal. Numbers of 64 bits take the fast path.
fn put_large_number(text: &mut Vec<u8>, number: u128) -> Result<(), NoMemory>
    ensures { OnOk result (text.new.items ≡ text.old.items ++ decimal number) }
{
    if number <= u128::from(u64::MAX) {
        return put_number(text, number as u64);
    }
    put_large_number(text, number / 10)?;
    text.push(b'0' + (number % 10) as u8)?;
    Ok(())
}

/// The line for a boot: the incarnation, and the number of its operation.
pub fn booted_line(alloc: Global, incarnation: u64, operation: usize) -> Result<Vec<u8>, NoMemory>
    ensures { IfOk result (λ line. line.items ≡ booted_text incarnation operation) }
{
    let mut line = Vec::with_capacity(alloc, ROOM)?;
    line.extend_from_slice(b"booted ")?;
    put_number(&mut line, incarnation)?;
    line.extend_from_slice(b" op ")?;
    put_number(&mut line, operation as u64)?;
    line.push(b'\n')?;
    Ok(line)
}

/// The line for an issued operation: its number, node, incarnation and counter.
pub fn issued_line(
    alloc: Global,
    operation: usize,
    node: &[u8],
    incarnation: u64,
    counter: u64,
) -> Result<Vec<u8>, NoMemory>
    ensures { IfOk result
        (λ line. line.items ≡ issued_text operation node.now incarnation counter) }
{
    let mut line = Vec::with_capacity(alloc, ROOM)?;
    line.extend_from_slice(b"issued ")?;
    put_number(&mut line, operation as u64)?;
    line.push(b' ')?;
    put_printed_name(&mut line, node)?;
    line.push(b' ')?;
    put_number(&mut line, incarnation)?;
    line.push(b' ')?;
    put_number(&mut line, counter)?;
    line.push(b'\n')?;
    Ok(line)
}

/// The line for a crash.
pub fn crashed_line() -> &'static str
    ensures { result.now ≡ crashed_text }
{
    "crashed\n"
}

/// The line for a tick that the start gate holds back.
pub fn held_line() -> &'static str
    ensures { result.now ≡ held_text }
{
    "held\n"
}

/// The line for a node that waited in vain for a mandatory one and went down.
pub fn gave_up_line() -> &'static str
    ensures { result.now ≡ gave_up_text }
{
    "gave up\n"
}

/// The line for a shipped message: its number, the kind of its body, and the number of heard dots in its state, if it
/// has one.
pub fn shipped_line(alloc: Global, message: usize, body: &Body) -> Result<Vec<u8>, NoMemory>
    ensures { IfOk result (λ line. line.items ≡ shipped_text message body.now) }
{
    let mut line = Vec::with_capacity(alloc, ROOM)?;
    line.extend_from_slice(b"shipped ")?;
    put_number(&mut line, message as u64)?;
    match body {
        Body::Whole(state) => {
            line.extend_from_slice(b" whole ")?;
            put_large_number(&mut line, state.heard().len())?;
        }
        Body::Interval(state) => {
            line.extend_from_slice(b" interval ")?;
            put_large_number(&mut line, state.heard().len())?;
        }
        Body::Nothing => line.extend_from_slice(b" nothing")?,
    }
    line.push(b'\n')?;
    Ok(line)
}

/// The line for an anti-entropy round: how many messages were shipped and delivered.
pub fn shared_line(alloc: Global, messages: usize) -> Result<Vec<u8>, NoMemory>
    ensures { IfOk result (λ line. line.items ≡ shared_text messages) }
{
    let mut line = Vec::with_capacity(alloc, ROOM)?;
    line.extend_from_slice(b"shared ")?;
    put_number(&mut line, messages as u64)?;
    line.push(b'\n')?;
    Ok(line)
}

/// The line for a delivery: whether it contained new information.
pub fn heard_line(fresh: bool) -> &'static str
    ensures { result.now ≡ heard_text fresh }
{
    if fresh {
        "heard new\n"
    } else {
        "heard nothing new\n"
    }
}

/// The line for a message number that wasn't shipped.
pub fn no_message_line(alloc: Global, message: u64) -> Result<Vec<u8>, NoMemory>
    ensures { IfOk result (λ line. line.items ≡ no_message_text message) }
{
    let line = format!(in alloc; "no message {message}\n")?;
    Ok(line.into_bytes())
}

/// The line for an operation number that wasn't issued.
pub fn no_operation_line(alloc: Global, operation: u64) -> Result<Vec<u8>, NoMemory>
    ensures { IfOk result (λ line. line.items ≡ no_operation_text operation) }
{
    let line = format!(in alloc; "no operation {operation}\n")?;
    Ok(line.into_bytes())
}

/// The line for a refusal: its number and name.
pub fn refused_line(alloc: Global, number: u8, name: &str) -> Result<Vec<u8>, NoMemory>
    ensures { IfOk result (λ line. line.items ≡ refused_text number name.now) }
{
    let mut line = Vec::with_capacity(alloc, ROOM)?;
    line.extend_from_slice(b"refused ")?;
    put_number(&mut line, u64::from(number))?;
    line.push(b' ')?;
    line.extend_from_slice(name.as_bytes())?;
    line.push(b'\n')?;
    Ok(line)
}

/// The line for whether two states have the same bytes.
pub fn same_line(same: bool) -> &'static str
    ensures { result.now ≡ same_text same }
{
    if same { "same\n" } else { "differ\n" }
}

/// The two hexadecimal digits of each byte, in order.
const DIGITS: &[u8; 512] = b"\
    000102030405060708090a0b0c0d0e0f101112131415161718191a1b1c1d1e1f\
    202122232425262728292a2b2c2d2e2f303132333435363738393a3b3c3d3e3f\
    404142434445464748494a4b4c4d4e4f505152535455565758595a5b5c5d5e5f\
    606162636465666768696a6b6c6d6e6f707172737475767778797a7b7c7d7e7f\
    808182838485868788898a8b8c8d8e8f909192939495969798999a9b9c9d9e9f\
    a0a1a2a3a4a5a6a7a8a9aaabacadaeafb0b1b2b3b4b5b6b7b8b9babbbcbdbebf\
    c0c1c2c3c4c5c6c7c8c9cacbcccdcecfd0d1d2d3d4d5d6d7d8d9dadbdcdddedf\
    e0e1e2e3e4e5e6e7e8e9eaebecedeeeff0f1f2f3f4f5f6f7f8f9fafbfcfdfeff";

/// Writes two digits per byte to the front of `line`. The rest stays.
fn write_digits(line: &mut [u8], bytes: &[u8])
    requires { 2 * length bytes.now ≤ length line.old }
    ensures { line.new ≡ encode_lower bytes.now ++ drop (2 * length bytes.now) line.old }
{
    for at in 0..bytes.len() {
        let place = 2 * bytes[at] as usize;
        let high = DIGITS[place];
        let low = DIGITS[place + 1];
        // (The later index first, so that one bound covers both.)
        line[2 * at + 1] = low;
        line[2 * at] = high;
    }
}

/// The line for bytes of a state or a message: two lower-case hexadecimal digits each.
pub fn hex_line(alloc: Global, bytes: &[u8]) -> Result<Vec<u8>, NoMemory>
    ensures { IfOk result (λ line. line.items ≡ hex_text bytes.now) }
{
    let mut line = vec![in alloc; b'\n'; 2 * bytes.len() + 1]?;
    write_digits(line.as_mut_slice(), bytes);
    Ok(line)
}

/// The line for a fault of the whole input: its number and name.
pub fn input_fault_line(alloc: Global, fault: InputFault) -> Result<Vec<u8>, NoMemory>
    ensures { IfOk result (λ line. line.items ≡ input_fault_text fault) }
{
    let number = fault.number();
    let name = fault.name();
    let line = format!(in alloc; "input fault {number} {name}\n")?;
    Ok(line.into_bytes())
}

/// The line for a fault of the configuration: its number, name and byte.
pub fn config_fault_line(alloc: Global, fault: ConfigFault) -> Result<Vec<u8>, NoMemory>
    ensures { IfOk result (λ line. line.items ≡ config_fault_text fault) }
{
    let number = fault.kind.number();
    let name = fault.kind.name();
    let at = fault.at;
    let line = format!(in alloc; "config fault {number} {name} at {at}\n")?;
    Ok(line.into_bytes())
}

/// The line for a fault of the script: its line, number and name.
pub fn script_fault_line(alloc: Global, fault: ScriptFault) -> Result<Vec<u8>, NoMemory>
    ensures { IfOk result (λ line. line.items ≡ script_fault_text fault) }
{
    let place = fault.line;
    let number = fault.kind.number();
    let name = fault.kind.name();
    let line = format!(in alloc; "script fault {place} {number} {name}\n")?;
    Ok(line.into_bytes())
}

/// The line for a failure. If it can't be allocated, [`OUT_OF_MEMORY`] can still be printed.
pub fn failure_line(alloc: Global, failure: Failure) -> Result<Vec<u8>, NoMemory>
    ensures { IfOk result (λ line. line.items ≡ failure_text failure) }
{
    match failure {
        Failure::Input(fault) => input_fault_line(alloc, fault),
        Failure::Config(fault) => config_fault_line(alloc, fault),
        Failure::Script(fault) => script_fault_line(alloc, fault),
        Failure::NoMemory => {
            let line = Vec::from_slice(alloc, OUT_OF_MEMORY.as_bytes())?;
            Ok(line)
        }
    }
}
