// What ends a session.
use std::io;

// A file or a stream by its name, and what is wrong with it.
#[derive(Clone, Copy)]
pub enum Failure<'a> {
    // It has another length than the image that it is to hold.
    Length(&'a [u8], usize),
    Io(&'a [u8], io::Error),
    // It cannot be written: the same, and the new file of this name that is to be taken away.
    Unsaved(&'a [u8], io::Error, &'a [u8]),
}

impl Failure<'_> {
    // A line on a stream, with the name as it was given, which need not be text. Where the stream takes no
    // more, the line is lost.
    pub fn tell(&self, stream: &impl Print) {
        match self {
            Failure::Length(name, length) => {
                let _ = stream.write_all(b"20: ");
                let _ = stream.write_all(name);
                streams::say(
                    stream,
                    format_args!(": has another length than {length} bytes"),
                );
            }
            Failure::Io(name, error) | Failure::Unsaved(name, error, _) => {
                streams::tell(stream, name, error)
            }
        }
    }
}
