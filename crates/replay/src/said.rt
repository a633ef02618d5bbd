// What goes to standard error: one line for what went wrong, which says what to do about it, and on a terminal how far the
// replay has come.
use host::said::Speaker;

pub(crate) fn speaker(rt: &HostRuntime) -> Speaker {
    Speaker {
        err: rt.stderr(),
        program: "replay",
        another: "name a trace file, or none to read standard input",
    }
}

pub(crate) fn too_many(speaker: Speaker) {
    speaker.say("too many arguments: name one trace file, or none to read standard input");
}

// Without a file the program waits at a terminal, and says so, since nobody could tell otherwise.
pub(crate) fn waits(speaker: Speaker) {
    speaker.say(
        "waits for a trace on standard input: name a file to replay that one, or end the input by Ctrl-D",
    );
}
