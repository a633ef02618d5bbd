// Compares the traces in the two files that its arguments name; '-' names standard input. The lines go to standard output, and
// what goes wrong is one line on standard error. A first argument '--report' asks for a mark that tells how the traces compare,
// and for another in place of the line where nobody reads the output any more. The program only moves bytes; what is compared
// and what a line says is decided in `comparison`, `listing` and below.
#![tactic(auto)]

ghost use Rattle.std.specs.Prelude.{◌≡◌};
ghost use Rattle.compare.specs.Rounds.{word_of};

mod differences;
mod errors;
mod said;
mod side;
mod watch;

use comparison::{Error, Likeness, Side, Sides};
use differences::differences;
use errors::walk;
use host::arguments::{count, is_input};
use host::descriptor::{is_input_open, open, open_input, write};
use host::failure::{Trouble, comes_once};
use host::report::{Failed, is_asked, mark, mark_unwritten, named};
use host::said::Speaker;
use std::fs::File;
use std::io;
use std::io::{Seek, Stdout};
use watch::Watch;

// Why two traces are not compared; one that has an error is not.
#[derive(Clone, Copy)]
pub(crate) enum Failure {
    Unread(Side, io::Error),
    Unwritten(io::Error),
    Changed,
    Erred(Error),
}

// Why a side cannot be used: its bytes come only once, or they cannot be read at all.
#[derive(Clone, Copy)]
enum Unusable {
    Once,
    Unread(io::Error),
}

impl Unusable {
    fn of(why: io::Error, may_come_once: bool) -> Unusable {
        if may_come_once && comes_once(why) {
            return Unusable::Once;
        }
        Unusable::Unread(why)
    }
}

// Kept (point 5): each of these three takes one failure off the way to a file, and a struct of host and name would be opened in
// each.
// A side by its name. Where standard input is closed, a file that was opened meanwhile may have its number.
fn opened(rt: &HostRuntime, name: &[u8], input_open: bool) -> io::Result<File> {
    if !is_input(name) {
        return open(rt, name);
    }
    if !input_open {
        return Err(io::Error::from(Trouble::Closed));
    }
    open_input(rt)
}

// A side whose bytes are there to be read twice, from any place.
fn placed(rt: &HostRuntime, name: &[u8], input_open: bool) -> Result<File, Unusable> {
    let mut file = opened(rt, name, input_open).map_err(|why| Unusable::of(why, is_input(name)))?;
    file.stream_position()
        .map_err(|why| Unusable::of(why, true))?;
    Ok(file)
}

fn usable(rt: &HostRuntime, name: &mut [u8], input_open: bool) -> Result<File, Failed> {
    let speaker = said::speaker(rt);
    match placed(rt, name, input_open) {
        Ok(file) => return Ok(file),
        Err(Unusable::Once) => said::only_once(speaker, name),
        Err(Unusable::Unread(why)) => said::side_unread(speaker, name, why),
    }
    Err(Failed::Said)
}

// Both walks: the one for errors over each side, and the one for the lines where there is none.
fn compared(rt: &HostRuntime, files: Sides<&File>, to: &mut Stdout) -> Result<Likeness, Failure> {
    let watcher = said::speaker(rt).watcher(&rt.stdout());
    let first = walk(Side::First, files.first, Watch { watcher, seen: 0 })?;
    let seen = first as u64;
    let second = walk(Side::Second, files.second, Watch { watcher, seen })?;
    let seen = seen.wrapping_add(second as u64);
    differences(files, to, Sides { first, second }, Watch { watcher, seen })
}

// Kept (point 6): as in the rounds, the line is the front of an array, with its count.
// Prints the error of a side.
fn put_error(to: &mut Stdout, error: Error) -> io::Result<()> {
    let mut out = [0u8; 4096];
    let count = text::put_error(error.side, error.refusal, error.place as u64, &mut out);
    write(to, &out[..count])?;
    Ok(())
}

// Tells why two traces are not compared, unless lines could not be written.
fn told(speaker: Speaker, failure: Failure, a: &mut [u8], b: &mut [u8], to: &mut Stdout) -> Failed {
    match failure {
        Failure::Unread(Side::First, why) => said::side_unread(speaker, a, why),
        Failure::Unread(Side::Second, why) => said::side_unread(speaker, b, why),
        Failure::Unwritten(why) => return Failed::Unwritten(why),
        Failure::Changed => said::changed(speaker),
        Failure::Erred(error) => {
            if let Err(why) = put_error(to, error) {
                return Failed::Unwritten(why);
            }
        }
    }
    Failed::Said
}

// The two sides by their names.
fn of_files(
    rt: &HostRuntime,
    a: &mut [u8],
    b: &mut [u8],
    to: &mut Stdout,
) -> Result<Likeness, Failed> {
    let input_open = is_input_open(rt);
    let first = usable(rt, a, input_open)?;
    let second = usable(rt, b, input_open)?;
    let files = Sides {
        first: &first,
        second: &second,
    };
    compared(rt, files, to).map_err(|failure| told(said::speaker(rt), failure, a, b, to))
}

// What the arguments from this place on ask for.
fn asked(rt: &HostRuntime, place: usize, to: &mut Stdout) -> Result<Likeness, Failed> {
    let speaker = said::speaker(rt);
    if count(rt).checked_sub(place) != Some(2) {
        said::not_two(speaker);
        return Err(Failed::Said);
    }
    let mut a = [0u8; 4096];
    let mut b = [0u8; 4096];
    let first = named(rt, speaker, place, &mut a)?;
    let second = named(rt, speaker, place + 1, &mut b)?;
    of_files(rt, first, second, to)
}

// Kept (point 4): two words for three cases, which only the mark of this program has.
fn word_of(likeness: Likeness) -> &'static [u8]
    ensures { result.now ≡ word_of likeness }
{
    match likeness {
        Likeness::Equal => b"equal\n".as_slice(),
        Likeness::Prefix | Likeness::Different => b"other\n".as_slice(),
    }
}

fn main(rt: HostRuntime) {
    let speaker = said::speaker(&rt);
    let mut to = rt.stdout();
    if !is_asked(&rt) {
        if let Err(Failed::Unwritten(why)) = asked(&rt, 1, &mut to) {
            speaker.output_unwritten(why);
        }
        return;
    }
    match asked(&rt, 2, &mut to) {
        Ok(likeness) => {
            let _ = mark(&rt, word_of(likeness));
        }
        Err(Failed::Said) => {}
        Err(Failed::Unwritten(why)) => mark_unwritten(&rt, speaker, why),
    }
}
