// A buffer of 64 KiB of fixed memory, filled from its front. A contract sees the bytes that are put.
//
// Bytes that find no room are left out, so a caller sees to room first.
ghost use Rattle.std.specs.Prelude.{◌≡◌, ◌≤◌, List, [], ◌∷◌, ℕ, take, drop, length, set};
ghost use Rattle.text.specs.Put.{Put, decimal, signed, hex};

use std::marker::Model;

const ROOM: usize = 65536;

// Digits are put by hand, in decimal and in hex: `write!` promises them only where it answers `Ok`, and
// what puts them cannot fail.
const DIGITS: [u8; 16] = *b"0123456789abcdef";

// A number's digits at the end of an array. Answers where they begin. A recursion that puts each digit by
// itself is shorter, and takes twice as long: the buffer's end then goes through memory at each digit.
fn spell(n: u64, text: &mut [u8; 20]) -> usize
    ensures value { drop result text.new ≡ decimal n }
    ensures bound { result ≤ 20 }
{
    let mut rest = n;
    let mut at = 20;
    while 0 < at {
        at -= 1;
        text[at] = b'0' + (rest % 10) as u8;
        rest /= 10;
        if rest == 0 {
            break;
        }
    }
    at
}

#[derive(Drop)]
pub struct Output {
    bytes: [u8; ROOM],
    end: usize,
}

impl Model for Output {
    ghost Value = { List ℕ };

    ghost view = { λ o. take o.end o.bytes };

    ghost invariant = { λ o. o.end ≤ 65536 };
}

impl Output {
    pub fn new() -> Self
        ensures { result ≡ [] }
    {
        Output {
            bytes: [0; ROOM],
            end: 0,
        }
    }

    pub fn as_slice(&self) -> &[u8]
        ensures { result.now ≡ self.now }
    {
        &self.bytes[..self.end]
    }

    pub fn clear(&mut self)
        ensures { self.new ≡ [] }
    {
        self.end = 0;
    }

    pub fn put(&mut self, b: u8)
        ensures { Put self.old (b ∷ []) self.new }
    {
        if self.end < ROOM {
            self.bytes[self.end] = b;
            self.end += 1;
        }
    }

    // Another byte at a place, where one is put there.
    pub fn replace(&mut self, place: usize, b: u8)
        ensures { self.new ≡ set self.old place b }
    {
        if place < self.end {
            self.bytes[place] = b;
        }
    }

    pub fn put_all(&mut self, text: &[u8])
        ensures { Put self.old text.now self.new }
    {
        let room = ROOM - self.end;
        if text.len() <= room {
            let end = self.end + text.len();
            self.bytes[self.end..end].copy_from_slice(text);
            self.end = end;
        } else {
            self.bytes[self.end..].copy_from_slice(&text[..room]);
            self.end = ROOM;
        }
    }

    // A number in decimal.
    fn put_decimal(&mut self, n: u64)
        ensures { Put self.old (decimal n) self.new }
    {
        if n < 10 {
            self.put(b'0' + n as u8);
            return;
        }
        let mut text = [0; 20];
        let from = spell(n, &mut text);
        let (_, digits) = text.split_at(from);
        self.put_all(digits);
    }

    // A space, and a number in decimal.
    pub fn put_number(&mut self, n: u64)
        ensures { Put self.old (32 ∷ decimal n) self.new }
    {
        self.put(b' ');
        self.put_decimal(n);
    }

    // A space, and a number in decimal, behind a minus where it is negative.
    pub fn put_signed(&mut self, n: i32)
        ensures { Put self.old (32 ∷ signed n) self.new }
    {
        self.put_all(b" ");
        if n < 0 {
            self.put(b'-');
        }
        self.put_decimal(u64::from(n.unsigned_abs()));
    }

    // A space, and bytes as pairs of hex digits: a minus where there are none.
    pub fn put_bytes(&mut self, bytes: &[u8])
        ensures { Put self.old (32 ∷ hex bytes.now) self.new }
    {
        self.put_all(b" ");
        if bytes.is_empty() {
            self.put_all(b"-");
            return;
        }
        for byte in bytes {
            self.put(DIGITS[usize::from(*byte / 16)]);
            self.put(DIGITS[usize::from(*byte % 16)]);
        }
    }
}
