// Replays the trace in the file that its one argument names, or on standard input where it names none or '-'. The lines go
// to standard output, and what goes wrong is one line on standard error. A first argument '--report' asks for a mark where
// all went well, and for another in place of the line where nobody reads the output any more. The program only moves bytes;
// what a record does and what a line says is decided in `steps` and below.
#![tactic(auto)]

mod done;
mod rounds;
mod said;

use host::arguments::{count, is_input};
use host::descriptor::open;
use host::report::{Failed, is_asked, mark_unwritten, named};
use rounds::{Failure, replay_from};
use std::io::{Error, IsTerminal, Stdout};

// Says that a trace could not be read; lines that could not be written are for `main` to say.
fn told<F: FnOnce(Error)>(failure: Failure, unread: F) -> Failed
    requires { (why : Error) → F.pre unread why }
{
    match failure {
        Failure::Unread(why) => {
            unread(why);
            Failed::Said
        }
        Failure::Unwritten(why) => Failed::Unwritten(why),
    }
}

fn of_input(rt: &HostRuntime, to: &mut Stdout) -> Result<(), Failed> {
    let speaker = said::speaker(rt);
    let mut from = rt.stdin();
    if from.is_terminal() {
        said::waits(speaker);
    }
    let end = replay_from(&mut from, to, speaker.watcher(&rt.stdout()));
    end.map_err(|failure| told(failure, |why| speaker.input_unread(why)))
}

fn of_path(rt: &HostRuntime, path: &[u8], to: &mut Stdout) -> Result<(), Failure> {
    let mut from = open(rt, path).map_err(Failure::Unread)?;
    replay_from(&mut from, to, said::speaker(rt).watcher(&rt.stdout()))
}

fn of_file(rt: &HostRuntime, place: usize, to: &mut Stdout) -> Result<(), Failed> {
    let speaker = said::speaker(rt);
    let mut buf = [0u8; 4096];
    let path = named(rt, speaker, place, &mut buf)?;
    if is_input(path) {
        return of_input(rt, to);
    }
    of_path(rt, path, to).map_err(|failure| told(failure, |why| speaker.file_unread(path, why)))
}

// What the arguments from this place on ask for.
// Kept (point 5): a struct of host, place and output would be made in `main`, and opened in the two functions that read it.
fn asked(rt: &HostRuntime, place: usize, to: &mut Stdout) -> Result<(), Failed> {
    let words = count(rt);
    if words <= place {
        return of_input(rt, to);
    }
    if words - place > 1 {
        said::too_many(said::speaker(rt));
        return Err(Failed::Said);
    }
    of_file(rt, place, to)
}

fn main(rt: HostRuntime) {
    let speaker = said::speaker(&rt);
    let mut to = rt.stdout();
    if !is_asked(&rt) {
        if let Err(Failed::Unwritten(why)) = asked(&rt, 1, &mut to) {
            speaker.output_unwritten(why);
        }
        return;
    }
    let end = asked(&rt, 2, &mut to);
    match end {
        Ok(()) => done::tell(&rt, end),
        Err(Failed::Said) => {}
        Err(Failed::Unwritten(why)) => mark_unwritten(&rt, speaker, why),
    }
}
