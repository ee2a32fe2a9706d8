//! Readers and writers that fail, are interrupted, or transfer one byte at a time.
use crate::running::{input_of, status_of};
use crate::scripts::EXAMPLE;
use std::alloc::Global;
use std::io;
use std::io::{Eprint, ErrorKind, Print, Read, Write};
use std::sync::Wait;
use std::thread::Threads;

/// A reader whose every read fails.
#[derive(Drop)]
struct Broken(ErrorKind);

impl Read for Broken {
    fn read(&mut self, _buf: &mut [u8]) -> io::Result<usize> {
        Err(io::Error::from(self.0))
    }
}

/// An endless reader of spaces.
#[derive(Drop)]
struct Endless;

impl Read for Endless {
    fn read(&mut self, buf: &mut [u8]) -> io::Result<usize> {
        for byte in buf.iter_mut() {
            *byte = b' ';
        }
        Ok(buf.len())
    }
}

/// A reader of one byte per read. One read fails.
#[derive(Drop)]
struct Slow<'a> {
    rest: &'a [u8],
    fault: Option<ErrorKind>,
    left: usize,
}

impl Read for Slow<'_> {
    fn read(&mut self, buf: &mut [u8]) -> io::Result<usize> {
        if self.rest.len() == self.left {
            if let Some(kind) = self.fault.take() {
                return Err(io::Error::from(kind));
            }
        }
        let room = buf.len().min(1);
        self.rest.read(&mut buf[..room])
    }
}

/// Whether `distac sim` prints this for a reader's input, and returns this status.
fn prints<T: Print + Eprint + Threads + Wait + Sync, R: Read>(
    rt: &T,
    alloc: Global,
    input: &mut R,
    status: u8,
    printed: &str,
) -> bool {
    let mut output = Vec::new(alloc);
    let answered = status_of(rt, alloc, "sim", input, &mut output);
    answered == status && output.as_slice() == printed.as_bytes()
}

/// A script of one line.
const LINE: &str = "boot cp1@cave 0";

/// Whether `distac sim` prints this for a script of one line, read byte by byte, and returns this status. One read
/// fails, with `left` bytes left.
fn reads<T: Print + Eprint + Threads + Wait + Sync>(
    rt: &T,
    alloc: Global,
    fault: Option<ErrorKind>,
    left: usize,
    status: u8,
    printed: &str,
) -> bool {
    match input_of(alloc, EXAMPLE, LINE) {
        Ok(text) => {
            let rest = text.as_bytes();
            prints(rt, alloc, &mut Slow { rest, fault, left }, status, printed)
        }
        Err(_) => false,
    }
}

/// The fault of a read, the bytes left then, the status, and the output.
const READS: &[(Option<ErrorKind>, usize, u8, &str)] = &[
    (None, 0, 0, "booted 1 op 1\n"),
    (Some(ErrorKind::Interrupted), 9, 0, "booted 1 op 1\n"),
    (Some(ErrorKind::Interrupted), 0, 0, "booted 1 op 1\n"),
    (Some(ErrorKind::Other), 9, 1, "input fault 3 Read\n"),
    (Some(ErrorKind::Other), 0, 1, "input fault 3 Read\n"),
];

#[test]
fn reads_byte_by_byte(rt: HostRuntime) {
    for (fault, left, status, printed) in READS {
        assert!(rt;
            reads(&rt, rt.alloc(), *fault, *left, *status, printed),
            "{fault:?} with {left} left"
        );
    }
}

#[test]
fn gives_up_what_cannot_be_read(rt: HostRuntime) {
    assert!(rt;
        prints(
            &rt,
            rt.alloc(),
            &mut Broken(ErrorKind::Other),
            1,
            "input fault 3 Read\n"
        )
    );
    assert!(rt;
        prints(
            &rt,
            rt.alloc(),
            &mut Broken(ErrorKind::Interrupted),
            1,
            "input fault 3 Read\n"
        )
    );
}

#[test]
fn gives_up_what_has_no_end(rt: HostRuntime) {
    assert!(rt; prints(&rt, rt.alloc(), &mut Endless, 1, "input fault 1 TooLong\n"));
}

/// A writer of one byte per write. One write fails, or every flush.
#[derive(Drop)]
struct Narrow {
    fault: Option<ErrorKind>,
    room: usize,
    flushes: bool,
}

impl Write for Narrow {
    fn write(&mut self, buf: &[u8]) -> io::Result<usize> {
        if self.room == 0 {
            if let Some(kind) = self.fault.take() {
                return Err(io::Error::from(kind));
            }
        }
        self.room = self.room.saturating_sub(1);
        Ok(buf.len().min(1))
    }

    fn flush(&mut self) -> io::Result<()> {
        if self.flushes {
            Ok(())
        } else {
            Err(io::Error::from(ErrorKind::StorageFull))
        }
    }
}

/// Whether a script of one line returns this status if a write fails after `room` bytes, or every flush fails.
fn writes<T: Print + Eprint + Threads + Wait + Sync>(
    rt: &T,
    alloc: Global,
    fault: Option<ErrorKind>,
    room: usize,
    flushes: bool,
    status: u8,
) -> bool {
    match input_of(alloc, EXAMPLE, LINE) {
        Ok(text) => {
            let mut output = Narrow {
                fault,
                room,
                flushes,
            };
            status_of(rt, alloc, "sim", &mut text.as_bytes(), &mut output) == status
        }
        Err(_) => false,
    }
}

/// The fault of a write, the bytes before it, whether flushes succeed, and the status.
const WRITES: &[(Option<ErrorKind>, usize, bool, u8)] = &[
    (None, 0, true, 0),
    (Some(ErrorKind::Interrupted), 5, true, 0),
    (Some(ErrorKind::StorageFull), 0, true, 1),
    (Some(ErrorKind::StorageFull), 5, true, 1),
    (None, 0, false, 1),
];

#[test]
fn fails_where_writing_fails(rt: HostRuntime) {
    for (fault, room, flushes, status) in WRITES {
        assert!(rt;
            writes(&rt, rt.alloc(), *fault, *room, *flushes, *status),
            "{fault:?} after {room}"
        );
    }
}
