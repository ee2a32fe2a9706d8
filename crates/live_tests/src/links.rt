//! A link: letters arrive in order, and its ends can be compared meanwhile.
use dac_links::{Letter, link};
use std::alloc::Global;
use std::sync::Wait;
use std::test::Fail;

fn letter(alloc: Global, byte: u8) -> Option<Letter> {
    let mut bytes = Vec::new(alloc);
    bytes.push(byte).ok()?;
    Some(Letter::of(bytes))
}

/// The byte of a letter, or `None` for an end letter.
fn byte_of(letter: Letter) -> Option<u8> {
    let bytes = letter.into_bytes()?;
    match bytes.first() {
        Some(byte) => Some(*byte),
        None => None,
    }
}

/// The letters received, with the ends compared after the first.
fn come_out<R: Wait>(rt: &R, alloc: Global) -> Option<[Option<u8>; 3]> {
    let (mut sender, mut receiver) = link(alloc, 2).ok()?;
    sender.put(rt, letter(alloc, 7)?).ok()?;
    sender.put(rt, letter(alloc, 8)?).ok()?;
    let first = receiver.take(rt).ok()?;
    let mut receiver = sender.compare(receiver);
    let second = receiver.take(rt).ok()?;
    sender.put(rt, Letter::end()).ok()?;
    let last = receiver.take(rt).ok()?;
    Some([byte_of(first), byte_of(second), byte_of(last)])
}

#[test]
fn letters_come_out_in_order(rt: HostRuntime) -> Result<(), Fail> {
    assert_eq!(rt; come_out(&rt, rt.alloc()), Some([Some(7), Some(8), None]));
    Ok(())
}
