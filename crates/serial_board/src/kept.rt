// What keeps a store of the board beyond its power.
use crate::failure::Failure;
use crate::files::{ImageFile, load};
use std::rt::Files;

// A file, if there is one, and the bytes that it holds.
#[derive(Drop)]
pub(crate) struct Kept<'a, const N: usize> {
    pub(crate) held: [u8; N],
    file: Option<ImageFile<'a>>,
}

impl<'a, const N: usize> Kept<'a, N> {
    // What the file holds, or what is given, where there is no such file.
    pub(crate) fn taken(
        rt: &impl Files,
        file: Option<ImageFile<'a>>,
        given: [u8; N],
    ) -> Result<Self, Failure<'a>> {
        let mut held = given;
        if let Some(file) = file {
            let mut room = [0u8; 8192];
            if let Some(image) = load(rt, file.name, N, &mut room)? {
                held.copy_from_slice(image);
            }
        }
        Ok(Kept { held, file })
    }

    // Writes the bytes of the store into the file where it holds others.
    pub(crate) fn keep(&mut self, rt: &impl Files, bytes: &[u8; N]) -> Result<(), Failure<'a>> {
        if let Some(file) = self.file
            && self.held != *bytes
        {
            file.save(rt, bytes)?;
            self.held = *bytes;
        }
        Ok(())
    }
}
