// What goes to standard error: one line for what went wrong, which says what to do about it, and on a terminal how far the
// comparison has come.
use host::arguments::is_input;
use host::said::Speaker;
use std::io::Error;

pub(crate) fn speaker(rt: &HostRuntime) -> Speaker {
    Speaker {
        err: rt.stderr(),
        program: "compare",
        another: "name a trace file",
    }
}

pub(crate) fn not_two(speaker: Speaker) {
    speaker.say("name two traces: ./compare A B");
}

// A side is called by its name, and standard input by what it is.
pub(crate) fn side_unread(speaker: Speaker, name: &mut [u8], why: Error) {
    if is_input(name) {
        speaker.input_unread(why);
    } else {
        speaker.file_unread(name, why);
    }
}

pub(crate) fn only_once(speaker: Speaker, name: &mut [u8]) {
    let twice = " twice (a pipe brings its bytes once: save them in a file, and name that)";
    if is_input(name) {
        speaker.say_of_input("cannot read ", twice);
    } else {
        speaker.say_of("cannot read ", name, twice);
    }
}

pub(crate) fn changed(speaker: Speaker) {
    speaker.say("a trace changed while it was compared (compare once more)");
}
