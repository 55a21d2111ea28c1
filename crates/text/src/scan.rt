// Words of a line: numbers in decimal, and bytes as pairs of hex digits.
//
// A number fits a signed 64-bit one; digits have no sign but a minus. The digits of bytes are small,
// and no bytes at all are a minus.
ghost use Rattle.std.specs.Prelude.{◌≡◌, ◌<◌, ◌≤◌, ◌^◌, [], ℕ, List, ◌↔◌, drop, length};
ghost use Rattle.std.specs.Option.{option_copied, option_map, SomeIff, IfSome, IsSome};
ghost use Rattle.text.specs.Line.{behind_space};
ghost use Rattle.text.specs.Numbers.{digit_count, leading_size, signed_of, number_from, number_at, word_at, up_to_at, words_at, Reads};
ghost use Rattle.text.specs.Hex.{digit_value, pair_value, hex_at, pairs_of, Took};

use std::marker::Model;

// A line that is read word by word. A contract sees what is left of it.
#[derive(Drop)]
pub struct Words<'a> {
    rest: &'a [u8],
}

impl<'a> Model for Words<'a> {
    ghost Value = { List ℕ };

    ghost view = { λ w. w.rest.now };
}

// Behind a space that a text begins with.
fn behind_space(text: &[u8]) -> Option<&[u8]>
    ensures { option_copied result ≡ behind_space text.now }
{
    text.strip_prefix(b" ")
}

// The number that the digits make that a text begins with, and how many they are. One look finds both, since most
// lines of a script have numbers.
fn digits(text: &[u8]) -> Option<(u64, usize)>
    ensures value { SomeIff result (leading_size 0 text.now < 2 ^ 64) (leading_size 0 text.now, digit_count text.now) }
    ensures bound { IfSome result (λ r. r.1 ≤ length text.now) }
{
    let mut size = 0u64;
    for (count, b) in text.iter().enumerate() {
        if !b.is_ascii_digit() {
            return Some((size, count));
        }
        size = size
            .checked_mul(10)?
            .checked_add(u64::from(b.saturating_sub(b'0')))?;
    }
    Some((size, text.len()))
}

// The number that a sign and a size give.
fn signed(minus: bool, size: u64) -> Option<i64>
    ensures { result ≡ signed_of minus size }
{
    if minus {
        0i64.checked_sub_unsigned(size)
    } else {
        0i64.checked_add_unsigned(size)
    }
}

// The number that a text begins with, behind its minus if it has one, and what stands behind it.
fn number_from(minus: bool, text: &[u8]) -> Option<(i64, &[u8])>
    ensures { option_map (λ r. (r.0, r.1.now)) result ≡ number_from minus text.now }
{
    let (size, count) = digits(text)?;
    if count == 0 {
        return None;
    }
    let number = signed(minus, size)?;
    let (_, rest) = text.split_at(count);
    Some((number, rest))
}

// The number behind a space that a text begins with, and what stands behind it.
fn number_at(text: &[u8]) -> Option<(i64, &[u8])>
    ensures { option_map (λ r. (r.0, r.1.now)) result ≡ number_at text.now }
{
    let word = behind_space(text)?;
    match word.strip_prefix(b"-") {
        Some(digits) => number_from(true, digits),
        None => number_from(false, word),
    }
}

// What a small hex digit counts for.
fn digit(b: u8) -> Option<u8>
    ensures value { result ≡ digit_value b }
    ensures bound { IfSome result (λ d. d < 16) }
{
    match b {
        b'0'..=b'9' => Some(b - b'0'),
        b'a'..=b'f' => Some(b - b'a' + 10),
        _ => None,
    }
}

// The byte of two digits, the high one first.
fn byte(pair: &[u8; 2]) -> Option<u8>
    ensures { result ≡ pair_value pair.now }
{
    Some(digit(pair[0])? * 16 + digit(pair[1])?)
}

// The bytes that the pairs of digits of a text make.
fn pairs(text: &[u8], room: &mut [u8; 64]) -> Option<usize>
    ensures { Took (pairs_of text.now 0 room.old) result room.new }
{
    let mut rest = text;
    let mut count = 0;
    while let Some((pair, behind)) = rest.split_first_chunk::<2>() {
        let byte = byte(pair)?;
        if count == room.len() {
            return None;
        }
        room[count] = byte;
        count += 1;
        rest = behind;
    }
    if rest.is_empty() && 0 < count {
        Some(count)
    } else {
        None
    }
}

impl<'a> Words<'a> {
    pub fn new(line: &'a [u8]) -> Self
        ensures { result ≡ line.now }
    {
        Words { rest: line }
    }

    // What is left of the line, so that a caller knows where what was read ends, and may read on from there twice.
    pub fn left(&self) -> &'a [u8]
        ensures { result.now ≡ self.now }
    {
        let Words { rest: left } = *self;
        left
    }

    // Something where the line is read to its end.
    pub fn end(&self) -> Option<()>
        ensures { IsSome result ↔ (self.now ≡ []) }
    {
        self.rest.is_empty().then_some(())
    }

    // The number behind a space. Where there is none, nothing is read.
    pub fn number(&mut self) -> Option<i64>
        ensures { Reads (number_at self.old) self.old result self.new }
    {
        let (number, rest) = number_at(self.rest)?;
        self.rest = rest;
        Some(number)
    }

    // The same of a number from 0 to a highest.
    pub fn up_to(&mut self, most: usize) -> Option<usize>
        ensures reads { Reads (up_to_at most self.old) self.old result self.new }
        ensures bound { IfSome result (λ n. n ≤ most) }
    {
        let (number, rest) = number_at(self.rest)?;
        let amount = usize::try_from(number).ok()?;
        if most < amount {
            return None;
        }
        self.rest = rest;
        Some(amount)
    }

    // The same of a number that fits a signed 32-bit word.
    pub fn word(&mut self) -> Option<i32>
        ensures { Reads (word_at self.old) self.old result self.new }
    {
        let (number, rest) = number_at(self.rest)?;
        let word = i32::try_from(number).ok()?;
        self.rest = rest;
        Some(word)
    }

    // So many words, one behind the other.
    pub fn words<const N: usize>(&mut self) -> Option<[i32; N]>
        ensures { Reads (words_at N self.old) self.old result self.new }
    {
        let mut ahead = Words { rest: self.rest };
        let mut words = [0; N];
        for word in &mut words {
            *word = ahead.word()?;
        }
        self.rest = ahead.rest;
        Some(words)
    }

    // What stands behind a space, to the end of the line.
    pub fn rest(self) -> Option<&'a [u8]>
        ensures { option_copied result ≡ behind_space self.entry }
    {
        behind_space(self.rest)
    }

    // The bytes behind a space, 64 at most, which are the last word of the line. Answers how many they are.
    pub fn bytes(self, room: &mut [u8; 64]) -> Option<usize>
        ensures { Took (hex_at self.entry room.old) result room.new }
    {
        let word = self.rest()?;
        if word == b"-".as_slice() {
            Some(0)
        } else {
            pairs(word, room)
        }
    }
}
