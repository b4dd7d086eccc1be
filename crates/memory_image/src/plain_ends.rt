// A source and a sink that never fail.
ghost use Rattle.std.specs.Prelude.{◌≡◌, ◌+◌, ◌-◌, ◌^◌, ◌<◌, ◌≤◌, Some, None, length, min, IsOk};
ghost use Rattle.std.specs.Prelude.{IfOk};
ghost use Rattle.std.specs.Io.{ReadsAtMost, WritesAtMost};
ghost use Rattle.std.specs.Io.KnownBytes.{ReadConsumes, WriteAppends};
ghost use Rattle.memory_image.specs.Ends.{HasCause};

use crate::ends::{Failed, Sink, Source};
use std::marker::Model;

/// A source over bytes that are lent. It gives them in pieces and never fails.
#[derive(Drop)]
pub struct PlainSource<'a> {
    bytes: &'a [u8],
    piece: usize,
}

impl<'a> Model for PlainSource<'a> {
    ghost use Rattle.std.specs.Prelude.{◌≤◌};
    ghost use Rattle.memory_image.specs.Ends.{Plain};

    ghost Value = { Plain };

    ghost view = { λ s. record { left = s.bytes.now; piece = s.piece } };

    ghost invariant = { λ s. 1 ≤ s.piece };
}

impl<'a> PlainSource<'a> {
    /// A source of these bytes, of which a read gives at most `piece`.
    pub fn new(bytes: &'a [u8], piece: usize) -> PlainSource<'a>
        requires { 1 ≤ piece }
        ensures { result ≡ record { left = bytes.now; piece = piece } }
    {
        PlainSource { bytes, piece }
    }
}

impl<'a> Source for PlainSource<'a> {
    ghost left = { λ s. Some s.left };

    ghost faults = { λ _. 0 };

    /// Gives as many bytes as the smallest of `piece`, the slice's length and the number of bytes left. It never fails.
    fn read(&mut self, into: &mut [u8]) -> Result<usize, Failed>
        ensures bound { ReadsAtMost result into.new }
        ensures bytes { ReadConsumes (Some self.old.left) (Some self.new.left) result into.new }
        ensures cause { HasCause 0 0 result }
        ensures count { IfOk result
            (λ count. count ≡ min self.old.piece (min (length into.old) (length self.old.left))) }
        ensures never { IsOk result }
        ensures same { self.new.piece ≡ self.old.piece }
    {
        let count = self.piece.min(into.len().min(self.bytes.len()));
        let (next, rest) = self.bytes.split_at(count);
        into[..count].copy_from_slice(next);
        self.bytes = rest;
        Ok(count)
    }
}

/// A sink that takes each piece whole and never fails. It keeps the number of bytes alone, and tells no contents.
#[derive(Drop)]
pub struct PlainSink {
    taken: u64,
}

impl Model for PlainSink {
    ghost use Rattle.std.specs.Prelude.{ℕ};

    ghost Value = { ℕ };

    ghost view = { λ s. s.taken };
}

impl PlainSink {
    /// A sink that has taken nothing.
    pub fn new() -> PlainSink
        ensures { result ≡ 0 }
    {
        PlainSink { taken: 0 }
    }

    /// How many bytes it has taken. The count stops at 2^64 - 1.
    pub fn taken(&self) -> u64
        ensures { result ≡ self.now }
    {
        self.taken
    }
}

impl Sink for PlainSink {
    ghost holds = { λ _. None };

    ghost faults = { λ _. 0 };

    /// Takes the whole slice. It never fails.
    fn write(&mut self, from: &[u8]) -> Result<usize, Failed>
        ensures bound { WritesAtMost result from.now }
        ensures some { IfOk result (λ count. 0 < length from.now → 0 < count) }
        ensures bytes { WriteAppends None None result from.now }
        ensures cause { HasCause 0 0 result }
        ensures whole { result ≡ Ok (length from.now) }
        ensures taken { self.new ≡ min (self.old + length from.now) (2 ^ 64 - 1) }
    {
        self.taken = self.taken.saturating_add(from.len() as u64);
        Ok(from.len())
    }
}
