// The mark of a run. A program ends with status 0 whatever came of its run. So a caller that wants to know asks for a mark by
// the first argument, and takes a run without a mark for one that failed.
use crate::arguments::word;
use crate::descriptor::{Way, is_open, is_pipe, write};
use crate::failure::{Trouble, is_unread};
use crate::said::Speaker;
use std::env::Env;
use std::fs::OpenOptions;
use std::io;
use std::io::Error;
use std::rt::Files;

// Where the mark goes. Nothing is written there unasked, since it may be any file that the program was handed.
const REPORT: &str = "/dev/fd/3";

// Why a run has no mark of its own: what went wrong is said already, or lines could not be written.
#[derive(Clone, Copy)]
pub enum Failed {
    Said,
    Unwritten(Error),
}

// The word at a place of the command. Where it cannot be read, that is said.
pub fn named<'a>(
    rt: &impl Env,
    speaker: Speaker,
    place: usize,
    buf: &'a mut [u8],
) -> Result<&'a mut [u8], Failed> {
    word(rt, place, buf).map_err(|why| {
        speaker.argument_unread(why);
        Failed::Said
    })
}

pub fn is_asked(rt: &impl Env) -> bool {
    let mut buf = [0u8; 4096];
    word(rt, 1, &mut buf).is_ok_and(|first| &*first == b"--report".as_slice())
}

// Writes the mark, which is a word and a line feed, behind what is there. The program has closed what it opened: a file of its
// own may have had the number where the caller gave none. A pipe is opened for both ways, since to open one for writing alone
// waits for a reader.
pub fn mark(rt: &impl Files, word: &[u8]) -> io::Result<()> {
    if !is_open(rt, REPORT, Way::Writing) {
        return Err(Error::from(Trouble::Closed));
    }
    let both = is_pipe(rt, REPORT);
    let mut report = OpenOptions::new().read(both).append(true).open(rt, REPORT)?;
    write(&mut report, word)?;
    Ok(())
}

// Lines that could not be written. Where nobody reads them any more, a caller that asked for a mark is told so by one, and says
// the rest itself.
pub fn mark_unwritten(rt: &impl Files, speaker: Speaker, why: Error) {
    if !is_unread(why) || mark(rt, b"gone\n").is_err() {
        speaker.output_unwritten(why);
    }
}
