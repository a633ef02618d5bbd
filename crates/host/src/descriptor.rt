// Bytes to and from what is open: the standard streams, and files. A call moves nothing where a signal breaks it off, or where
// the descriptor does not wait and is not ready yet. It is then made again, so that no byte is lost to a slow reader. Any other
// failure is for the caller to say.
ghost use Rattle.std.specs.Prelude.{◌≡◌, ◌+◌, ◌^◌, ◌≤◌, ◌<◌, length, IfOk, IfErr};

use crate::failure::{Short, Trouble};
use std::fs::{File, metadata, symlink_metadata};
use std::io;
use std::io::{Error, ErrorKind, Read, Write};
use std::os::unix::fs::{FileExt, FileTypeExt, MetadataExt};
use std::rt::Files;
use std::str::from_utf8;
use std::thread::yield_now;

// A proved loop has to end, and nothing says that a call succeeds at last or that a trace ends. So such a loop counts its
// rounds, up to a number that is never reached.
pub const TRIES: u64 = u64::MAX;

// Standard input, as the system names it.
const INPUT: &str = "/dev/fd/0";

// What a descriptor is open for, by the bit that the system sets for it.
#[derive(Clone, Copy)]
pub(crate) enum Way {
    Reading = 0o400,
    Writing = 0o200,
}

// The file of this name, for reading. What is not UTF-8 names none here, since a path is text.
pub fn open<R: Files>(rt: &R, name: &[u8]) -> io::Result<R::File> {
    let path = from_utf8(name).map_err(|_| Trouble::NoText)?;
    File::open(rt, path)
}

// Is this descriptor open this way? The link that the system has for it says so by its mode.
pub(crate) fn is_open(rt: &impl Files, link: &str, way: Way) -> bool {
    symlink_metadata(rt, link).is_ok_and(|found| found.mode() & way as u32 != 0)
}

// Where it is closed, the next file that is opened takes its number.
pub fn is_input_open(rt: &impl Files) -> bool {
    is_open(rt, INPUT, Way::Reading)
}

// Is it a pipe? To open one that has a name waits for the other side.
pub(crate) fn is_pipe(rt: &impl Files, path: &str) -> bool {
    metadata(rt, path).is_ok_and(|found| found.file_type().is_fifo())
}

// Standard input once more, as a file with a place of its own. A pipe has none.
pub fn open_input<R: Files>(rt: &R) -> io::Result<R::File> {
    if !is_input_open(rt) {
        return Err(Error::from(Trouble::Closed));
    }
    if is_pipe(rt, INPUT) {
        return Err(Error::from(Trouble::NoPlace));
    }
    File::open(rt, INPUT)
}

// Is a call that ended so worth making again?
fn again(answer: &io::Result<usize>) -> bool {
    match answer.map_err(|why| why.kind()) {
        Err(ErrorKind::WouldBlock) => {
            yield_now();
            true
        }
        Err(ErrorKind::Interrupted) => true,
        _ => false,
    }
}

// What is answered where the tries are used up.
fn used_up() -> Error {
    Error::from(ErrorKind::Interrupted)
}

// How many bytes a read brought: none at the end of the input alone.
// Kept (point 2): this loop and that of `write_some` were tried as one function that is lent the call as a closure. What such a
// call answers is known of the closure's state of then, and that its buffer is still as long as this one didn't close.
// Kept (points 5 and 6): a count, as std's `Read::read` and `Write::write` answer it: the buffer stays the caller's, who goes
// on behind what came. So it is for `fill`, `fill_at` and the two writes.
pub fn read<R: Read>(from: &mut R, buf: &mut [u8]) -> io::Result<usize>
    ensures { IfOk result (λ count. count ≤ length buf.new) }
{
    for _ in 0..TRIES {
        let answer = from.read(buf);
        if !again(&answer) {
            return answer;
        }
    }
    Err(used_up())
}

// Fills the buffer, and answers how many bytes there are: fewer than it has room for only where the input ends. A read may
// bring fewer than it could, so only one that brings nothing is the end. Where one fails, it says how many came before.
// Kept (point 3): the library's `read_exact` does not say how many bytes there are where the input ends, and does not wait for
// a descriptor that is not ready.
pub fn fill<R: Read>(from: &mut R, buf: &mut [u8]) -> Result<usize, Short>
    ensures ok { IfOk result (λ count. count ≤ length buf.new) }
    ensures err { IfErr result (λ short. short.count < length buf.new) }
{
    let mut done: usize = 0;
    while done < buf.len() {
        let count = read(from, &mut buf[done..]).map_err(|why| Short { count: done, why })?;
        if count == 0 {
            return Ok(done);
        }
        done += count;
    }
    Ok(done)
}

// A file from an offset on, whatever was read of it before.
#[derive(Drop)]
struct From<'a, F> {
    file: &'a F,
    offset: u64,
}

impl<F: FileExt> Read for From<'_, F> {
    fn read(&mut self, buf: &mut [u8]) -> io::Result<usize> {
        let count = self.file.read_at(buf, self.offset)?;
        self.offset = self.offset.wrapping_add(count as u64);
        Ok(count)
    }
}

// Fills the buffer with the bytes of a file from an offset on.
pub fn fill_at<F: FileExt>(file: &F, offset: usize, buf: &mut [u8]) -> Result<usize, Short>
    requires { offset + length buf.old < 2 ^ 63 }
    ensures ok { IfOk result (λ count. count ≤ length buf.new) }
    ensures err { IfErr result (λ short. short.count < length buf.new) }
{
    fill(
        &mut From {
            file,
            offset: offset as u64,
        },
        buf,
    )
}

// How many of the first bytes a write took.
fn write_some<W: Write>(to: &mut W, buf: &[u8]) -> io::Result<usize>
    ensures { IfOk result (λ count. count ≤ length buf.now) }
{
    for _ in 0..TRIES {
        let answer = to.write(buf);
        if !again(&answer) {
            return answer;
        }
    }
    Err(used_up())
}

// Writes all of the bytes, and answers how many were taken, or where a write failed how many before. Each write begins behind
// the bytes that were taken before it.
// Kept (point 3): the library's `write_all` gives up where a descriptor is not ready, says another text where nothing is taken,
// and doesn't say how many bytes were.
pub fn write<W: Write>(to: &mut W, buf: &[u8]) -> Result<usize, Short>
    ensures ok { IfOk result (λ count. count ≡ length buf.now) }
    ensures err { IfErr result (λ short. short.count < length buf.now) }
{
    let mut done: usize = 0;
    while done < buf.len() {
        let count = write_some(to, &buf[done..]).map_err(|why| Short { count: done, why })?;
        if count == 0 {
            let why = Error::from(ErrorKind::WriteZero);
            return Err(Short { count: done, why });
        }
        done += count;
    }
    Ok(done)
}
