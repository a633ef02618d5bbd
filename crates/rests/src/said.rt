// What goes to standard error: one line for what went wrong, which says what to do about it. Nothing else is written there.
use host::said::Speaker;
use std::io::Error;

pub(crate) fn speaker(rt: &HostRuntime) -> Speaker {
    Speaker {
        err: rt.stderr(),
        program: "rests",
        another: "name a trace file",
    }
}

pub(crate) fn not_three(speaker: Speaker) {
    speaker.say("give two trace files and a record number, as in: rests FIRST SECOND 0");
}

pub(crate) fn argument_unread(speaker: Speaker, why: Error) {
    speaker.fail("cannot read its arguments (give shorter ones)", why);
}

pub(crate) fn no_number(speaker: Speaker, word: &mut [u8]) {
    let behind = " is no record number: give one from 0 to 18446744073709551615";
    speaker.say_of("", word, behind);
}

pub(crate) fn too_long(speaker: Speaker, name: &mut [u8]) {
    speaker.say_of(
        "",
        name,
        " is longer than 65536 bytes: name a shorter trace",
    );
}
