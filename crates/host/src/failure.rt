// Why a call failed, as far as the programs ask: by the system's numbers where std has no name, and by what a person can do
// about it.
ghost use Rattle.std.specs.Prelude.{◌≡◌};

use std::env::FillError;
use std::io::{Error, ErrorKind};

const NO_SUCH_DEVICE: i32 = 6;

const CLOSED: i32 = 9;

const NO_TEXT: i32 = 84;

// What the programs find out by themselves, and say as the system would.
#[derive(Clone, Copy)]
pub enum Trouble {
    // A descriptor that is closed, or open for something else.
    Closed,
    // What has no place to read from: its bytes come once.
    NoPlace,
    // A word that is not there.
    Missing,
    // A word that no buffer holds: no file has so long a name.
    TooLong,
    // A name that is not UTF-8, which no path can be.
    NoText,
}

impl Trouble {
    // Kept (point 1): these are the system's numbers: three have no kind in std, and `said` says a failure by the system's text
    // for its number, which an error that is made of a kind does not have.
    fn number(self) -> i32 {
        match self {
            Trouble::Closed => CLOSED,
            Trouble::NoPlace => 29,
            Trouble::Missing => 22,
            Trouble::TooLong => 36,
            Trouble::NoText => NO_TEXT,
        }
    }
}

impl From<Trouble> for Error {
    fn from(trouble: Trouble) -> Error {
        Error::from_raw_os_error(trouble.number())
    }
}

impl From<FillError> for Trouble {
    fn from(why: FillError) -> Trouble {
        match why {
            FillError::NotPresent => Trouble::Missing,
            FillError::TooLong => Trouble::TooLong,
        }
    }
}

// What a call moved before it failed, and why it did.
#[derive(Clone, Copy)]
pub struct Short {
    pub count: usize,
    pub why: Error,
}

impl From<Short> for Error {
    ghost from_gives = { λ short why. why ≡ short.why };

    fn from(short: Short) -> Error {
        short.why
    }
}

// Bytes that come only once, as those of a pipe, a terminal or a socket, which is not even opened once more.
pub fn comes_once(why: Error) -> bool {
    why.kind() == ErrorKind::NotSeekable || why.raw_os_error() == Some(NO_SUCH_DEVICE)
}

// What is written is not read by anyone any more.
pub fn is_unread(why: Error) -> bool {
    why.kind() == ErrorKind::BrokenPipe
}

// What a person can do where a file cannot be read.
#[derive(Clone, Copy)]
pub enum Remedy {
    NameAnother,
    MakeReadable,
    Rename,
}

impl Remedy {
    fn by_number(why: Error) -> Option<Remedy> {
        match why.raw_os_error() {
            Some(CLOSED) => Some(Remedy::NameAnother),
            Some(NO_TEXT) => Some(Remedy::Rename),
            _ => None,
        }
    }

    // The remedy, where one is known.
    // Kept (point 4): no `From`, since some errors have no remedy.
    pub fn of(why: Error) -> Option<Remedy> {
        match why.kind() {
            ErrorKind::NotFound
            | ErrorKind::NotADirectory
            | ErrorKind::IsADirectory
            | ErrorKind::InvalidFilename
            | ErrorKind::FilesystemLoop => Some(Remedy::NameAnother),
            ErrorKind::PermissionDenied => Some(Remedy::MakeReadable),
            _ => Remedy::by_number(why),
        }
    }
}
