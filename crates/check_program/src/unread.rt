// Why an image cannot be read.
use std::env::FillError;
use std::{fmt, io};

#[derive(Clone, Copy)]
pub(crate) enum Unread {
    // The argument is gone.
    NotPresent,
    NameTooLong,
    // std opens a file by a text, so a name that is none has no file here.
    NoText,
    Io(io::Error),
}

impl From<FillError> for Unread {
    fn from(error: FillError) -> Unread {
        match error {
            FillError::TooLong => Unread::NameTooLong,
            FillError::NotPresent => Unread::NotPresent,
        }
    }
}

impl From<io::Error> for Unread {
    fn from(error: io::Error) -> Unread {
        Unread::Io(error)
    }
}

// Linux's numbers of what is told by name. They stay numbers, since std's `ErrorKind` has none for 5 and
// one for both 13 and 1, which is not told by name.
const NO_ENTRY: i32 = 2;

const IO: i32 = 5;

const ACCESS: i32 = 13;

const NOT_DIRECTORY: i32 = 20;

const IS_DIRECTORY: i32 = 21;

const NAME_TOO_LONG: i32 = 36;

impl Unread {
    fn words(&self) -> &'static str {
        match self {
            Unread::NameTooLong => "File name too long",
            Unread::NotPresent | Unread::NoText => "the system refused it",
            Unread::Io(error) => match error.raw_os_error() {
                Some(NO_ENTRY) => "No such file or directory",
                Some(ACCESS) => "Permission denied",
                Some(IS_DIRECTORY) => "Is a directory",
                Some(NOT_DIRECTORY) => "Not a directory",
                Some(NAME_TOO_LONG) => "File name too long",
                Some(IO) => "Input/output error",
                _ => "the system refused it",
            },
        }
    }
}

impl fmt::Display for Unread {
    fn fmt<W: fmt::Write>(&self, f: &mut fmt::Formatter<W>) -> fmt::Result {
        write!(f, "cannot be read: {}", self.words())
    }
}
