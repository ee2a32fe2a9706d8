//! Runs in which one read or write fails, each in turn.
use crate::lives::{PHASES, PHASES_PRINTED};
use crate::placements::STARTING;
use crate::running::{input_of, status_of};
use crate::scripts::{EXAMPLE, FIRST_PATH, REPEATS};
use std::alloc::Global;
use std::io;
use std::io::{Eprint, ErrorKind, Print, Read, Write};
use std::sync::Wait;
use std::thread::Threads;

/// A reader of a few bytes per read. One read fails.
#[derive(Drop)]
struct Faulty<'a> {
    rest: &'a [u8],
    /// How many reads precede the failure.
    well: usize,
    failed: bool,
}

/// The most bytes per read or write.
const WIDTH: usize = 50;

impl Read for Faulty<'_> {
    fn read(&mut self, buf: &mut [u8]) -> io::Result<usize> {
        if self.well == 0 && !self.failed {
            self.failed = true;
            return Err(io::Error::from(ErrorKind::Other));
        }
        self.well = self.well.saturating_sub(1);
        let room = buf.len().min(WIDTH);
        self.rest.read(&mut buf[..room])
    }
}

/// A writer of a few bytes per write. One write fails.
#[derive(Drop)]
struct Full {
    taken: Vec<u8>,
    /// How many writes precede the failure.
    well: usize,
    failed: bool,
}

impl Write for Full {
    fn write(&mut self, buf: &[u8]) -> io::Result<usize> {
        if self.well == 0 && !self.failed {
            self.failed = true;
            return Err(io::Error::from(ErrorKind::StorageFull));
        }
        self.well = self.well.saturating_sub(1);
        let room = buf.len().min(WIDTH);
        self.taken.write(&buf[..room])
    }

    fn flush(&mut self) -> io::Result<()> {
        Ok(())
    }
}

/// Whether the bytes are a prefix of the output.
fn is_beginning(taken: &[u8], printed: &str) -> bool {
    printed.as_bytes().starts_with(taken)
}

/// The result of a run in which one read or write fails.
#[derive(Clone, Copy, Debug, PartialEq, Eq)]
enum Came {
    /// The run failed as expected.
    Failed,
    /// No read or write failed, and the output is complete, with status 0.
    Well,
    /// Anything else.
    Wrong,
}

/// The result of a run whose read fails after `well` others. Then only the fault is printed.
fn reads<T: Print + Eprint + Threads + Wait + Sync>(
    rt: &T,
    alloc: Global,
    word: &str,
    text: &[u8],
    well: usize,
    printed: &str,
) -> Came {
    let mut input = Faulty {
        rest: text,
        well,
        failed: false,
    };
    let mut output = Vec::new(alloc);
    let status = status_of(rt, alloc, word, &mut input, &mut output);
    let fault = output.as_slice() == b"input fault 3 Read\n".as_slice();
    if input.failed && status == 1 && fault {
        Came::Failed
    } else if !input.failed && status == 0 && output.as_slice() == printed.as_bytes() {
        Came::Well
    } else {
        Came::Wrong
    }
}

/// The result of a run whose write fails after `well` others. Then a prefix of the output is printed.
fn writes<T: Print + Eprint + Threads + Wait + Sync>(
    rt: &T,
    alloc: Global,
    word: &str,
    text: &[u8],
    well: usize,
    printed: &str,
) -> Came {
    let mut input = text;
    let mut output = Full {
        taken: Vec::new(alloc),
        well,
        failed: false,
    };
    let status = status_of(rt, alloc, word, &mut input, &mut output);
    let begins = is_beginning(output.taken.as_slice(), printed);
    if output.failed && status == 1 && begins {
        Came::Failed
    } else if !output.failed && status == 0 && output.taken.as_slice() == printed.as_bytes() {
        Came::Well
    } else {
        Came::Wrong
    }
}

/// The most reads or writes of a run.
const MOST: usize = 1_000;

/// The number of reads of a run, each failed in turn, or `None` if a result was wrong.
fn reads_in_turn<T: Print + Eprint + Threads + Wait + Sync>(
    rt: &T,
    alloc: Global,
    word: &str,
    text: &[u8],
    printed: &str,
) -> Option<usize> {
    for well in 0..MOST {
        match reads(rt, alloc, word, text, well, printed) {
            Came::Failed => {}
            Came::Well => return Some(well),
            Came::Wrong => return None,
        }
    }
    None
}

/// The number of writes of a run, each failed in turn, or `None` if a result was wrong.
fn writes_in_turn<T: Print + Eprint + Threads + Wait + Sync>(
    rt: &T,
    alloc: Global,
    word: &str,
    text: &[u8],
    printed: &str,
) -> Option<usize> {
    for well in 0..MOST {
        match writes(rt, alloc, word, text, well, printed) {
            Came::Failed => {}
            Came::Well => return Some(well),
            Came::Wrong => return None,
        }
    }
    None
}

/// The command, with a configuration, a script and the output.
type Row = (&'static str, (&'static str, &'static str, &'static str));

const ROWS: [Row; 4] = [
    ("sim", FIRST_PATH),
    ("sim", STARTING),
    ("sim", REPEATS),
    ("live", (EXAMPLE, PHASES, PHASES_PRINTED)),
];

/// Whether each read and each write of a run fails as expected, and there are enough of both.
fn all_fail_in_turn<T: Print + Eprint + Threads + Wait + Sync>(
    rt: &T,
    alloc: Global,
    row: Row,
) -> Option<bool> {
    let (word, (config, script, printed)) = row;
    let text = input_of(alloc, config, script).ok()?;
    let bytes = text.as_bytes();
    let reads = reads_in_turn(rt, alloc, word, bytes, printed)?;
    let writes = writes_in_turn(rt, alloc, word, bytes, printed)?;
    Some(reads > bytes.len() / WIDTH && writes >= printed.len() / WIDTH)
}

#[test]
fn each_read_and_write_fails_in_turn(rt: HostRuntime) {
    for i in 0..ROWS.len() {
        let answer = all_fail_in_turn(&rt, rt.alloc(), ROWS[i]);
        assert!(rt; answer == Some(true), "row {i}");
    }
}
