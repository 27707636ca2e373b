// Text and numbers, at a place of a buffer that is lent, or behind what is written of a fixed room. What has no room is left out
// whole.
#![tactic(auto)]

ghost use Rattle.std.specs.Prelude.{◌≡◌, ◌≤◌, [], length, take, OnOk};
ghost use Rattle.text.specs.Places.{Put, NumberedAt};
ghost use Rattle.text.specs.Text.{has_room, with_text, rest_of, rest_with, PutInPieces, PutWhole, Numbered};

use std::fmt;
use std::fmt::{Display, Write};
use std::marker::Model;

// A text at a place of a buffer. The answer is the place behind it. Where it has no room nothing changes, and the place stays.
pub fn put(out: &mut [u8], place: usize, text: &[u8]) -> usize
    ensures { Put text.now place out.old out.new result }
{
    if place <= out.len() {
        if text.len() <= out.len() - place {
            let end = place + text.len();
            out[place..end].copy_from_slice(text);
            return end;
        }
    }
    place
}

// A number in base ten, at a place of a buffer.
pub fn put_number(out: &mut [u8], place: usize, n: u64) -> usize
    ensures { NumberedAt n place out.old out.new result }
{
    let mut digits = [0; 20];
    let count = io::decimal(n, &mut digits);
    put(out, place, &digits[..count])
}

// Bytes that are written one behind the other, of which there is room for N. Contracts see those that are written.
// An array with its length beside it: this is the type that keeps the two together for all others, in fixed memory, with no heap.
#[derive(Drop)]
pub struct Buffer<const N: usize> {
    bytes: [u8; N],
    len: usize,
}

impl<const N: usize> Model for Buffer<N> {
    ghost use Rattle.std.specs.Prelude.{◌≤◌, ℕ, List, take};

    ghost Value = { List ℕ };

    ghost view = { λ b. take b.len b.bytes };

    ghost invariant = { λ b. b.len ≤ N };
}

impl<const N: usize> Buffer<N> {
    // Nothing is written.
    pub fn new() -> Self
        ensures { result ≡ [] }
    {
        Buffer {
            bytes: [0; N],
            len: 0,
        }
    }

    // How many bytes are written.
    pub fn len(&self) -> usize
        ensures count { result ≡ length self.now }
        ensures fits { result ≤ N }
    {
        self.len
    }

    // The bytes that are written.
    pub fn as_slice(&self) -> &[u8]
        ensures bytes { result.now ≡ self.now }
        ensures fits { length result.now ≤ N }
    {
        &self.bytes[..self.len]
    }

    // Whether there is room for a text behind what is written.
    // It stands beside `put`, which answers nothing, since all callers but one leave out what has no room.
    pub fn has_room(&self, text: &[u8]) -> bool
        ensures { result ≡ has_room N text.now self.now }
    {
        text.len() <= N - self.len
    }

    // Nothing is written any more.
    pub fn clear(&mut self)
        ensures { self.new ≡ [] }
    {
        self.len = 0;
    }

    // A text. Where it has no room nothing changes.
    pub fn put(&mut self, text: &[u8])
        ensures { self.new ≡ with_text N text.now self.old }
    {
        self.len = put_behind(&mut self.bytes, self.len, text);
    }

    // A number in base ten.
    pub fn put_number(&mut self, n: u64)
        ensures { Numbered N n self.old self.new }
    {
        self.len = put_number(&mut self.bytes, self.len, n);
    }

    // What a value displays, each piece of it as a text of its own, behind what is written, which stays. The answer is the value's
    // own: a buffer never fails, but a value may, and std says what it displays only where it does not.
    pub fn print<V: Display + Drop>(&mut self, value: V) -> fmt::Result
        ensures front { take (length self.old) self.new ≡ self.old }
        ensures fits { length self.new ≤ N }
        ensures pieces { OnOk result (PutInPieces N (V.output value) self.old self.new) }
        ensures whole { OnOk result (PutWhole N (V.output value) self.old self.new) }
    {
        let start = self.len;
        let all = &mut self.bytes[..];
        let (count, shown) = print_into(&mut all[start..], value);
        self.len = start + count;
        shown
    }
}

// A text behind the first bytes of a room. The answer is how many are written then; where it has no room nothing changes.
fn put_behind(bytes: &mut [u8], start: usize, text: &[u8]) -> usize
    requires { start ≤ length bytes.old }
    ensures written { take result bytes.new ≡ with_text (length bytes.old) text.now (take start bytes.old) }
    ensures fits { result ≤ length bytes.old }
{
    put(bytes, start, text)
}

// What a value displays, into a room of which nothing is written. The answer is how many bytes are written then, no more than there
// are, since nothing is known of the rest behind a value that fails; and the value's own answer.
fn print_into<V: Display + Drop>(bytes: &mut [u8], value: V) -> (usize, fmt::Result)
    ensures fits { result.0 ≤ length bytes.old }
    ensures pieces { OnOk result.1 (PutInPieces (length bytes.old) (V.output value) [] (take result.0 bytes.new)) }
{
    let room = bytes.len();
    let mut rest = Rest { bytes, len: 0 };
    let shown = rest.write(value);
    (rest.len.min(room), shown)
}

// The room behind what a buffer holds, with how many bytes of it are written. A value that displays itself writes into this and
// not into the buffer, so that it cannot reach what is written already. It is no model, since contracts ask for the reference too.
#[derive(Drop)]
struct Rest<'a> {
    bytes: &'a mut [u8],
    len: usize,
    ghost fits: { len ≤ length bytes.now },
}

// A piece is put, and the reference stays the one that was lent, so that the piece stands in the buffer.
impl Write for Rest<'_> {
    ghost write_str_gives = { λ before text after. (after.bytes.ghost_name ≡ before.bytes.ghost_name)
        × (rest_of after.bytes.now after.len ≡ rest_with text (rest_of before.bytes.now before.len)) };

    fn write_str(&mut self, s: &str) -> fmt::Result
        ensures { (self.new.bytes.ghost_name ≡ self.old.bytes.ghost_name)
            × (rest_of self.new.bytes.now self.new.len ≡ rest_with s.now (rest_of self.old.bytes.now self.old.len)) }
    {
        self.len = put_behind(self.bytes, self.len, s.as_bytes());
        Ok(())
    }
}

// A piece of a format is a text like any other, so that one without room is left out and those behind it are not.
impl<const N: usize> Write for Buffer<N> {
    ghost write_str_gives = { λ before text after. after ≡ with_text N text before };

    fn write_str(&mut self, s: &str) -> fmt::Result
        ensures { self.new ≡ with_text N s.now self.old }
    {
        self.put(s.as_bytes());
        Ok(())
    }
}
