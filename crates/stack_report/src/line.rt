// A line of a report.
ghost use Rattle.std.specs.Prelude.{◌≡◌, ◌+◌, ◌≤◌, ◌++◌, [], length, take, drop};
ghost use Rattle.std.specs.Fmt.{decimal};
ghost use Rattle.stack_report.specs.Digits.{hexadecimal};

use crate::digits::{decimal_digits, head_digits};
use std::marker::Model;

/// A line that is put together in one place before a report takes it: at most 256 bytes. Contracts see
/// its bytes.
#[derive(Drop)]
pub(crate) struct Line {
    bytes: [u8; 256],
    end: usize,
}

impl Model for Line {
    ghost use Rattle.std.specs.Prelude.{ℕ, List, ◌≡◌, ◌≤◌, length, take};

    ghost Value = { List ℕ };

    ghost view = { λ l. take l.end l.bytes };

    ghost invariant = { λ l. (l.end ≤ 256) × (length l.bytes ≡ 256) };
}

impl Line {
    /// No text.
    pub(crate) fn new() -> Line
        ensures { result ≡ [] }
    {
        Line {
            bytes: [0; 256],
            end: 0,
        }
    }

    /// The bytes of the text.
    pub(crate) fn bytes(&self) -> &[u8]
        ensures { result.now ≡ self.now }
    {
        &self.bytes[..self.end]
    }

    /// Puts the head of some bytes last. There is room for all of them.
    #[inline(always)]
    fn put_head(&mut self, bytes: &[u8], count: usize)
        requires room { length self.old + length bytes.now ≤ 256 }
        requires head { count ≤ length bytes.now }
        ensures { self.new ≡ self.old ++ take count bytes.now }
    {
        write_at(&mut self.bytes, self.end, bytes);
        self.end += count;
    }

    /// Puts a text last. Where it is a word of the report, its length is known, and its bytes are written
    /// without a call.
    #[inline(always)]
    pub(crate) fn put(&mut self, text: &str)
        requires { length self.old + length text.now ≤ 256 }
        ensures text { self.new ≡ self.old ++ text.now }
        ensures size { length self.new ≡ length self.old + length text.now }
    {
        self.put_head(text.as_bytes(), text.len());
    }

    /// Puts a hexadecimal number last.
    #[inline(never)]
    fn put_number(&mut self, number: u64)
        requires { length self.old + 18 ≤ 256 }
        ensures text { self.new ≡ self.old ++ hexadecimal number }
        ensures most { length self.new ≤ length self.old + 18 }
    {
        self.put("0x");
        let (digits, count) = head_digits(number);
        self.put_head(&digits, count);
    }

    /// Puts a label and a hexadecimal number last.
    #[inline(always)]
    pub(crate) fn put_field(&mut self, label: &str, number: u64)
        requires { length self.old + length label.now + 18 ≤ 256 }
        ensures text { self.new ≡ self.old ++ label.now ++ hexadecimal number }
        ensures most { length self.new ≤ length self.old + length label.now + 18 }
    {
        self.put(label);
        self.put_number(number);
    }

    /// Puts a label and a decimal number last.
    pub(crate) fn put_count(&mut self, label: &str, count: usize)
        requires { length self.old + length label.now + 20 ≤ 256 }
        ensures text { self.new ≡ self.old ++ label.now ++ decimal count }
        ensures most { length self.new ≤ length self.old + length label.now + 20 }
    {
        self.put(label);
        let (digits, start) = decimal_digits(count as u64);
        self.put_head(&digits[start..], 20 - start);
    }
}

/// Writes bytes into a room from a place on.
#[inline(always)]
fn write_at(room: &mut [u8], place: usize, bytes: &[u8])
    requires { place + length bytes.now ≤ length room.old }
    ensures { room.new
        ≡ take place room.old ++ bytes.now ++ drop (place + length bytes.now) room.old }
{
    room[place..place + bytes.len()].copy_from_slice(bytes);
}
