// The work of the program compare: two files of any length in bounded memory, the verdict on standard output, and for a person on standard error what is the matter with which line.
#![tactic(auto)]

use compare_stands::{Comparison, Stop, read_or_told};
use std::env::FillError;
use std::io::{ErrorKind, Read};
use std::rt::{Env, Files};
use std::{fs, io};

// The longest name of a file, and the zero after it.
const NAME: usize = 4096;

// What the system answers to a longer name.
const NAME_TOO_LONG: i32 = 36;

// The events are read in pieces of at most so many bytes.
const PIECE: usize = 16384;

// The files, as a person knows them.
const EVENTS: &str = "compare: the events";

const ANSWERS: &str = "compare: the answers";

// The header's line, and then the events, piece by piece, and their end. Both files are read before anything is said.
fn compare_files(
    out: &impl Print,
    said: &impl Print,
    events: &mut impl Read,
    answers: impl Read + Drop,
) -> Result<(), Stop> {
    let mut piece = [0u8; PIECE];
    let mut comparison = Comparison::new(out, said, answers);
    let first = read_or_told(said, EVENTS, events.read(&mut piece));
    let filled = comparison.fill();
    let mut count = first?;
    filled?;
    comparison.meet_header()?;
    // a proved loop ends: it counts up to a number that no file uses up
    for _ in 0..u64::MAX {
        if count == 0 {
            return comparison.end_events();
        }
        comparison.meet_piece(&piece[0..count])?;
        count = read_or_told(said, EVENTS, events.read(&mut piece))?;
    }
    Ok(())
}

// Opens the file of a name, which std takes as text.
fn open_name<R: Files>(rt: &R, name: &[u8]) -> io::Result<R::File> {
    match str::from_utf8(name) {
        Ok(text) => fs::open(rt, text),
        Err(_) => Err(io::Error::new(ErrorKind::InvalidInput, "the name of the file is not UTF-8")),
    }
}

// A file that is named by an argument.
fn open<R: Env + Files>(
    rt: &R,
    said: &impl Print,
    argument: usize,
    what: &str,
) -> Result<R::File, Stop> {
    let mut name = [0u8; NAME];
    let opened = match rt.arg(argument, &mut name) {
        Ok(n) => open_name(rt, &name[0..n]),
        Err(_) => Err(io::Error::from_raw_os_error(NAME_TOO_LONG)),
    };
    read_or_told(said, what, opened)
}

// Whether the program was given an argument at a place, be it of any length.
fn is_given(rt: &impl Env, argument: usize) -> bool {
    let mut word = [0u8; 1];
    !matches!(rt.arg(argument, &mut word), Err(FillError::NotPresent))
}

// Opens both files and compares them.
fn compare_named(rt: &(impl Env + Files + Print), said: &impl Print) -> Result<(), Stop> {
    let mut events = open(rt, said, 1, EVENTS)?;
    let answers = open(rt, said, 2, ANSWERS)?;
    compare_files(rt, said, &mut events, answers)
}

// Two arguments: a file of events, and one of answers.
pub fn run(rt: &(impl Env + Files + Print), said: &impl Print) -> io::Result<()> {
    if !is_given(rt, 2) || is_given(rt, 3) {
        let _ = said.write_all(b"compare: give two files, the events and the answers\n");
        return Ok(());
    }
    match compare_named(rt, said) {
        Ok(()) | Err(Stop::Said) => Ok(()),
        Err(Stop::Unwritten(error)) => Err(error),
    }
}
