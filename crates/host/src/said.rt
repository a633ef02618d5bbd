// What goes to standard error: a name that cannot break the line, why something failed, and on a terminal how far a long run has
// come, in one place that is left empty again.
use crate::descriptor::write;
use crate::failure::Remedy;
use std::fmt::{Display, InlineText};
use std::io::{Error, IsTerminal, Stderr};

const MEGABYTE: u64 = 1000000;

// A write that fails here is not told: there is no other place to say it.
fn put(mut err: Stderr, bytes: &[u8]) {
    let _ = write(&mut err, bytes);
}

// A text of at most 256 bytes.
fn put_text<D: Display + Drop>(err: Stderr, text: D) {
    put(err, InlineText::<256>::of(text).as_str().as_bytes());
}

// A byte of a file's name, where a byte that could break the line or move the cursor is a question mark.
fn shown(byte: u8) -> u8 {
    if byte.is_ascii_control() { b'?' } else { byte }
}

// A file's name in quotes.
fn put_name(err: Stderr, name: &mut [u8]) {
    for byte in name.iter_mut() {
        *byte = shown(*byte);
    }
    put(err, b"'");
    put(err, name);
    put(err, b"'");
}

// What the system calls it, without the number that std puts behind.
fn named(text: &str) -> &str {
    match text.split_once(" (os error ") {
        Some((name, _)) => name,
        None => text,
    }
}

// The end of a line: what is to be said of it, and why it failed.
fn put_end<D: Display + Drop>(err: Stderr, what: D, why: Error) {
    let why = InlineText::<256>::of(why);
    let why = named(why.as_str());
    put_text(err, format_args!("{what}: {why}\n"));
}

// A program as it speaks to a person: by lines on standard error that begin with its name. What other name it takes, where it
// cannot read a file, is its own to say.
#[derive(Clone, Copy)]
pub struct Speaker {
    pub err: Stderr,
    pub program: &'static str,
    pub another: &'static str,
}

// Kept (point 4): a text's braces take a name and no field, so the program's name is taken out first.
impl Speaker {
    // A line of at most 256 bytes.
    pub fn say<D: Display + Drop>(self, what: D) {
        let program = self.program;
        put_text(self.err, format_args!("{program}: {what}\n"));
    }

    // A line on a file, with what is said before its name and behind it.
    pub fn say_of(self, before: &str, name: &mut [u8], behind: &str) {
        let program = self.program;
        put_text(self.err, format_args!("{program}: {before}"));
        put_name(self.err, name);
        put_text(self.err, format_args!("{behind}\n"));
    }

    // The same on standard input.
    pub fn say_of_input(self, before: &str, behind: &str) {
        let program = self.program;
        put_text(
            self.err,
            format_args!("{program}: {before}standard input{behind}\n"),
        );
    }

    // A line on what failed, and why.
    pub fn fail<D: Display + Drop>(self, what: D, why: Error) {
        let program = self.program;
        put_text(self.err, format_args!("{program}: "));
        put_end(self.err, what, why);
    }

    // The end of a line about what cannot be read: what to do, where that is known, and why the last call failed.
    fn end_unread(self, why: Error) {
        let another = self.another;
        match Remedy::of(why) {
            Some(Remedy::NameAnother) => put_end(self.err, format_args!(" ({another})"), why),
            Some(Remedy::MakeReadable) => put_end(self.err, " (make it readable)", why),
            Some(Remedy::Rename) => put_end(self.err, " (give it a name in UTF-8)", why),
            None => put_end(self.err, "", why),
        }
    }

    fn unread(self, what: &str, why: Error) {
        let program = self.program;
        put_text(self.err, format_args!("{program}: cannot read {what}"));
        self.end_unread(why);
    }

    pub fn argument_unread(self, why: Error) {
        self.unread("its argument", why);
    }

    pub fn input_unread(self, why: Error) {
        self.unread("standard input", why);
    }

    pub fn file_unread(self, name: &mut [u8], why: Error) {
        let program = self.program;
        put_text(self.err, format_args!("{program}: cannot read "));
        put_name(self.err, name);
        self.end_unread(why);
    }

    pub fn output_unwritten(self, why: Error) {
        self.fail(
            "cannot write standard output (make room there, or send it elsewhere)",
            why,
        );
    }

    // A person at a terminal who sees no lines come.
    pub fn watcher(self, out: &impl IsTerminal) -> Option<Watcher> {
        if self.err.is_terminal() && !out.is_terminal() {
            return Some(Watcher { speaker: self });
        }
        None
    }
}

// A person who is shown how far a run is.
#[derive(Clone, Copy)]
pub struct Watcher {
    speaker: Speaker,
}

impl Watcher {
    fn show(self, total: u64) {
        let megabytes = total / MEGABYTE;
        let program = self.speaker.program;
        if megabytes != 0 {
            put_text(
                self.speaker.err,
                format_args!("\r{program}: {megabytes} MB read"),
            );
        }
    }

    fn clear(self, total: u64) {
        if total >= MEGABYTE {
            put(self.speaker.err, b"\r                        \r");
        }
    }
}

// Kept (point 5): the total is the caller's, who counts on; only who watches stays the same.
// Shows that so many bytes were read so far, where someone watches.
pub fn show(watcher: Option<Watcher>, total: u64) {
    if let Some(watcher) = watcher {
        watcher.show(total);
    }
}

// Clears what is shown, at the end and before lines are written: a write to a pipe that nobody reads any more may end the
// program, and no progress may be left then.
pub fn clear(watcher: Option<Watcher>, total: u64) {
    if let Some(watcher) = watcher {
        watcher.clear(total);
    }
}

// The same before so many bytes of lines.
pub fn clear_before(count: usize, watcher: Option<Watcher>, total: u64) {
    if 0 < count {
        clear(watcher, total);
    }
}
