// Files read whole and written whole.
//
// What is written goes into a new file beside the old one, which takes its name once every byte is on
// the disk. So a file is never half the one and half the other.
ghost use Rattle.std.specs.Prelude.{◌≡◌, ◌≤◌, IfOk, IfSome, length};

use crate::failure::Failure;
use std::fs::OpenFile;
use std::io::{ErrorKind, Write};
use std::rt::Files;
use std::{fs, io};

// Linux's numbers for a name that is too long and for bytes that are no text. They stay numbers, since
// `streams::tell` has the system's words from them.
const NAME_TOO_LONG: i32 = 36;

const NO_TEXT: i32 = 84;

// A file's name as std takes it, which is a text. That it is too long is told before that it is no text, and
// in `check_program` behind it.
fn path_of(name: &[u8]) -> io::Result<&str> {
    if 4096 <= name.len() {
        return Err(io::Error::from_raw_os_error(NAME_TOO_LONG));
    }
    str::from_utf8(name).map_err(|_| io::Error::from_raw_os_error(NO_TEXT))
}

fn open<R: Files>(rt: &R, name: &[u8]) -> io::Result<R::File> {
    fs::open(rt, path_of(name)?)
}

fn create<R: Files>(rt: &R, name: &[u8]) -> io::Result<R::File> {
    fs::create(rt, path_of(name)?)
}

// The image of this size in a file, in a room that is longer, so that a longer file is seen to be one;
// nothing where there is no such file.
pub fn load<'n, 'r>(
    rt: &impl Files,
    name: &'n [u8],
    size: usize,
    room: &'r mut [u8; 8192],
) -> Result<Option<&'r [u8]>, Failure<'n>>
    ensures { IfOk result (λ found. IfSome found (λ image. length image.now ≡ size)) }
{
    let mut file = match open(rt, name) {
        Ok(file) => file,
        Err(error) if error.kind() == ErrorKind::NotFound => return Ok(None),
        Err(error) => return Err(Failure::Io(name, error)),
    };
    let count = streams::fill(&mut file, room).map_err(|error| Failure::Io(name, error))?;
    if count == size {
        Ok(Some(&room[..count]))
    } else {
        Err(Failure::Length(name, size))
    }
}

// A file that keeps an image: its name, and the one that it has while it is written.
#[derive(Clone, Copy)]
pub(crate) struct ImageFile<'a> {
    pub(crate) name: &'a [u8],
    fresh: &'a [u8],
}

impl<'a> ImageFile<'a> {
    // An empty name is no file. One that is too long fills the room, which no file's name does.
    pub(crate) fn named(name: &'a [u8], room: &'a mut [u8; 4096]) -> Option<Self> {
        if name.is_empty() {
            return None;
        }
        let mut left: &mut [u8] = room;
        let _ = left.write_all(name);
        let _ = left.write_all(b".new");
        let behind = left.len();
        let length = room.len().saturating_sub(behind);
        Some(ImageFile {
            name,
            fresh: &room[..length],
        })
    }

    // The bytes into the file.
    pub(crate) fn save(&self, rt: &impl Files, bytes: &[u8]) -> Result<(), Failure<'a>> {
        let file = create(rt, self.fresh).map_err(|error| Failure::Io(self.fresh, error))?;
        put(file, bytes).map_err(|error| Failure::Unsaved(self.fresh, error, self.fresh))?;
        rename(rt, self.fresh, self.name).map_err(|error| Failure::Unsaved(
            self.name, error, self.fresh,
        ))?;
        settle(rt, self.name);
        Ok(())
    }
}

// The bytes into a file, whole and on the disk.
fn put<F: Write + OpenFile + Drop>(mut file: F, bytes: &[u8]) -> io::Result<()> {
    file.write_all(bytes)?;
    file.sync_all()
}

fn rename(rt: &impl Files, fresh: &[u8], name: &[u8]) -> io::Result<()> {
    fs::rename(rt, path_of(fresh)?, path_of(name)?)
}

// A new file that cannot take the name is not left behind, as far as it can be taken away.
pub(crate) fn remove(rt: &impl Files, fresh: &[u8]) {
    if let Ok(path) = path_of(fresh) {
        let _ = fs::remove_file(rt, path);
    }
}

// Where a name's last word begins: behind its last slash. By `map_or` the place behind the slash would want
// a clause of its own to be one of the name's.
fn last_word(name: &[u8]) -> usize
    ensures { result ≤ length name.now }
{
    match name.iter().rposition(|b| *b == b'/') {
        Some(slash) => slash + 1,
        None => 0,
    }
}

fn open_folder<R: Files>(rt: &R, name: &[u8]) -> io::Result<R::File> {
    let end = last_word(name);
    if end == 0 {
        return open(rt, b".");
    }
    open(rt, &name[..end])
}

// Has the folder keep a file's new name over a loss of power. Where it cannot, the file holds the image
// all the same.
fn settle(rt: &impl Files, name: &[u8]) {
    if let Ok(folder) = open_folder(rt, name) {
        let _ = folder.sync_all();
    }
}
