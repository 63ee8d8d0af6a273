// Text in a lent buffer. A method that adds to it puts something after the text that is there. Where there is no room for all of it,
// the buffer stays as it was, and the text has no length from then on.
#![tactic(auto)]

ghost use Rattle.std.specs.Prelude.{◌≡◌, [], ◌∷◌, ◌+◌, ◌<◌, ◌≤◌, min, length, take, None, IfSome, IsNone, IsOk, IfOk};
ghost use Rattle.std.specs.Io.{WritesAtMost};
ghost use Rattle.std.specs.Io.KnownBytes.{Keeps, WriteAppends};
ghost use Rattle.text.specs.Digits.{hex_digit_ascii};
ghost use Rattle.text.specs.Numbers.{decimal, signed, hex_byte};
ghost use Rattle.text.specs.Added.{place_of, place_with_room};
ghost use Rattle.text.specs.Text.{WithAdded, BeginsIn, BeginsAgain, MakesRoom, TakesIn, Takes};

use itoa::Buffer;
use std::io;
use std::io::{Stdout, Write};

// The place of a text without a length. No buffer is as long, so nothing has room after it.
pub const FULL: usize = usize::MAX;

// A buffer, and how many bytes at its start are text. After something had no room there is no length, and nothing has room.
#[derive(Drop)]
pub struct Text<'a> {
    pub bytes: &'a mut [u8],
    pub len: Option<usize>,
}

impl Text<'_> {
    // Adds bytes as they are.
    pub fn add(&mut self, word: &[u8])
        ensures { WithAdded word.now self.old self.new }
    {
        match self.place_after(word.len()) {
            Some(end) => {
                self.bytes[end - word.len()..end].copy_from_slice(word);
                self.len = Some(end);
            }
            None => self.len = None,
        }
    }

    // Adds one byte.
    pub fn add_byte(&mut self, b: u8)
        ensures { WithAdded (b ∷ []) self.old self.new }
    {
        self.add(&[b]);
    }

    // Adds a number in decimal.
    pub fn add_decimal(&mut self, n: u64)
        ensures { WithAdded (decimal n) self.old self.new }
    {
        let mut digits = Buffer::new();
        self.add(digits.format(n).as_bytes());
    }

    // Adds a signed number in decimal, given by its 64 bits.
    pub fn add_signed(&mut self, bits: u64)
        ensures { WithAdded (signed bits) self.old self.new }
    {
        let mut digits = Buffer::new();
        self.add(digits.format(bits.cast_signed()).as_bytes());
    }

    // Adds a byte as two hexadecimal digits.
    pub fn add_hex(&mut self, b: u8)
        ensures { WithAdded (hex_byte b) self.old self.new }
    {
        self.add(&[digit(b / 16), digit(b % 16)]);
    }

    // The place after the text.
    fn place(&self) -> usize
        ensures { result ≡ place_of self.now.len }
    {
        self.len.unwrap_or(FULL)
    }

    // Prints the text, and returns the place at the buffer's start.
    fn print(&self, out: Stdout) -> usize
        ensures { result ≡ 0 }
    {
        print(out, self.bytes, self.place())
    }

    // The place after so many bytes more. There is none where they have no room.
    fn place_after(&self, n: usize) -> Option<usize>
        ensures fits { IfSome result (λ end. (end ≡ place_of self.now.len + n) × (end ≤ length self.now.bytes.now)) }
        ensures no_room { IsNone result → length self.now.bytes.now < place_of self.now.len + n }
    {
        place_after(self.bytes, self.len?, n)
    }
}

fn place_after(text: &[u8], at: usize, n: usize) -> Option<usize>
    ensures fits { IfSome result (λ end. (end ≡ at + n) × (end ≤ length text.now)) }
    ensures no_room { IsNone result → length text.now < at + n }
{
    if text.len() < at {
        return None;
    }
    if text.len() - at < n {
        return None;
    }
    Some(at + n)
}

// The place from which `n` bytes more can be added: `at` where there is room for them after it. Otherwise the text is printed
// first, unless `at` is past the buffer, and the place is the buffer's start.
pub fn with_room(out: Stdout, text: &[u8], at: usize, n: usize) -> usize
    ensures { result ≡ place_with_room n text.now at }
{
    if place_after(text, at, n).is_some() {
        return at;
    }
    print(out, text, at)
}

// Prints the first `at` bytes of the buffer to standard output, and returns the place at its start. No contract can say what
// reaches standard output. Whether the write failed is dropped.
#[cold]
#[inline(never)]
pub fn print(mut out: Stdout, text: &[u8], at: usize) -> usize
    ensures { result ≡ 0 }
{
    if let Some(printed) = text.get(..at) {
        let _ = out.write_all(printed);
    }
    0
}

// A text that is printed to standard output and begun again when it has no room for what is to be added.
#[derive(Drop)]
pub struct Printer<'a> {
    pub out: Stdout,
    pub text: Text<'a>,
}

impl<'a> Printer<'a> {
    // Nothing is to be printed yet.
    pub fn new(out: Stdout, bytes: &'a mut [u8]) -> Printer<'a>
        ensures { BeginsIn bytes.entry result.text }
    {
        Printer {
            out,
            text: Text {
                bytes,
                len: Some(0),
            },
        }
    }

    // Sees that `n` bytes more can be added: prints the text where there is no room for them after it.
    pub fn make_room(&mut self, n: usize)
        ensures { MakesRoom n self.old.text self.new.text }
    {
        if self.text.place_after(n).is_none() {
            self.print();
        }
    }

    // Prints the text, and begins it again.
    pub fn print(&mut self)
        ensures { BeginsAgain self.old.text self.new.text }
    {
        self.text.len = Some(self.text.print(self.out));
    }

    // Adds bytes as they are, after room is made for them.
    pub fn add(&mut self, word: &[u8])
        ensures { Takes word.now self.old.text self.new.text }
    {
        self.make_room(word.len());
        self.text.add(word);
    }

    // The same of one byte.
    pub fn add_byte(&mut self, b: u8)
        ensures { Takes (b ∷ []) self.old.text self.new.text }
    {
        self.make_room(1);
        self.text.add_byte(b);
    }

    // The same of a number in decimal. Room is made for the longest.
    pub fn add_decimal(&mut self, n: u64)
        ensures { TakesIn 20 (decimal n) self.old.text self.new.text }
    {
        self.make_room(20);
        self.text.add_decimal(n);
    }

    // The same of a signed number in decimal, given by its 64 bits.
    pub fn add_signed(&mut self, bits: u64)
        ensures { TakesIn 20 (signed bits) self.old.text self.new.text }
    {
        self.make_room(20);
        self.text.add_signed(bits);
    }

    // The same of a byte as two hexadecimal digits.
    pub fn add_hex(&mut self, b: u8)
        ensures { Takes (hex_byte b) self.old.text self.new.text }
    {
        self.make_room(2);
        self.text.add_hex(b);
    }
}

impl Write for Printer<'_> {
    // As many of the bytes as the buffer can hold.
    fn write(&mut self, bytes: &[u8]) -> io::Result<usize>
        ensures bound { WritesAtMost result bytes.now }
        ensures bytes { WriteAppends None None result bytes.now }
        ensures count { IfOk result (λ n. n ≡ min (length bytes.now) (length self.old.text.bytes.now)) }
        ensures ok { IsOk result }
        ensures takes { Takes (take (length self.old.text.bytes.now) bytes.now) self.old.text self.new.text }
    {
        let n = bytes.len().min(self.text.bytes.len());
        self.add(&bytes[..n]);
        Ok(n)
    }

    fn flush(&mut self) -> io::Result<()>
        ensures bytes { Keeps None None }
        ensures ok { IsOk result }
        ensures begins { BeginsAgain self.old.text self.new.text }
    {
        self.print();
        Ok(())
    }
}

fn digit(d: u8) -> u8
    requires { d < 16 }
    ensures { result ≡ hex_digit_ascii d }
{
    b"0123456789abcdef"[d as usize]
}
