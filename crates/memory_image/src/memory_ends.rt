// A source and a sink over memory whose listed calls fail.
ghost use Rattle.std.specs.Prelude.{◌≡◌, ◌-◌, ◌<◌, ◌≤◌, ◌↔◌, ◌==◌, ◌&&◌, ◌||◌, Some, [], length};
ghost use Rattle.std.specs.Prelude.{min, nat_lt, is_ok, IsErr, IfOk, IsTrue, if◌then◌else◌};
ghost use Rattle.std.specs.List.{list_any};
ghost use Rattle.std.specs.Io.{ReadsAtMost, WritesAtMost};
ghost use Rattle.std.specs.Io.KnownBytes.{ReadConsumes, WriteAppends};
ghost use Rattle.memory_image.specs.Ends.{HasCause, one_more};

use crate::ends::{Failed, Sink, Source};
use std::alloc::{AllocError, Global};
use std::marker::Model;

/// A source over bytes that are lent. It gives them in pieces, and the calls with the listed numbers fail.
///
/// Calls are numbered from 0. The counts of calls and of faults stop at 2^64 - 1.
#[derive(Drop)]
pub struct MemorySource<'a> {
    bytes: &'a [u8],
    piece: usize,
    failing: &'a [u64],
    calls: u64,
    faults: u64,
}

impl<'a> Model for MemorySource<'a> {
    ghost use Rattle.std.specs.Prelude.{◌≤◌};
    ghost use Rattle.memory_image.specs.Ends.{Feed};

    ghost Value = { Feed };

    ghost view = { λ s. record {
      left = s.bytes.now;
      piece = s.piece;
      failing = s.failing.now;
      calls = s.calls;
      faults = s.faults;
    } };

    ghost invariant = { λ s. 1 ≤ s.piece };
}

impl<'a> MemorySource<'a> {
    /// A source of these bytes, of which a read gives at most `piece`. The calls numbered in `failing` fail.
    pub fn new(bytes: &'a [u8], piece: usize, failing: &'a [u64]) -> MemorySource<'a>
        requires { 1 ≤ piece }
        ensures { result ≡ record
            { left = bytes.now; piece = piece; failing = failing.now; calls = 0; faults = 0 } }
    {
        MemorySource {
            bytes,
            piece,
            failing,
            calls: 0,
            faults: 0,
        }
    }
}

impl<'a> Source for MemorySource<'a> {
    ghost left = { λ s. Some s.left };

    ghost faults = { λ s. s.faults };

    /// Gives as many bytes as the smallest of `piece`, the slice's length and the number of bytes left.
    ///
    /// # Errors
    ///
    /// [`Failed`] exactly where this call is listed.
    fn read(&mut self, into: &mut [u8]) -> Result<usize, Failed>
        ensures bound { ReadsAtMost result into.new }
        ensures bytes { ReadConsumes (Some self.old.left) (Some self.new.left) result into.new }
        ensures cause { HasCause self.old.faults self.new.faults result }
        ensures listed { IsTrue (list_any (λ call. call == self.old.calls) self.old.failing) ↔
            IsErr result }
        ensures count { IfOk result
            (λ count. count ≡ min self.old.piece (min (length into.old) (length self.old.left))) }
        ensures counters { self.new ≡ record self.old {
          left = self.new.left;
          calls = one_more self.old.calls;
          faults =
              (if is_ok result then self.old.faults else one_more self.old.faults);
        } }
    {
        let call = self.calls;
        self.calls = call.saturating_add(1);
        if self.failing.contains(&call) {
            self.faults = self.faults.saturating_add(1);
            return Err(Failed);
        }
        let count = self.piece.min(into.len().min(self.bytes.len()));
        let (next, rest) = self.bytes.split_at(count);
        into[..count].copy_from_slice(next);
        self.bytes = rest;
        Ok(count)
    }
}

/// A sink that keeps at most as many bytes as it has room for. The calls with the listed numbers fail, and so do those that bring
/// bytes while it is full.
///
/// Calls are numbered from 0. The counts of calls and of faults stop at 2^64 - 1.
#[derive(Drop)]
pub struct MemorySink<'a> {
    bytes: Vec<u8>,
    room: usize,
    failing: &'a [u64],
    calls: u64,
    faults: u64,
}

impl<'a> Model for MemorySink<'a> {
    ghost use Rattle.std.specs.Prelude.{◌≤◌, vec_capacity, vec_len};
    ghost use Rattle.memory_image.specs.Ends.{Store};

    ghost Value = { Store };

    ghost view = { λ s. record {
      held = s.bytes.items;
      room = s.room;
      failing = s.failing.now;
      calls = s.calls;
      faults = s.faults;
    } };

    ghost invariant = { λ s. (vec_len s.bytes ≤ s.room) × (s.room ≤ vec_capacity s.bytes) };
}

impl<'a> MemorySink<'a> {
    /// An empty sink, with `room` bytes reserved, so that a write takes no memory. The calls numbered in `failing` fail.
    ///
    /// # Errors
    ///
    /// [`AllocError`] where there is no memory for the room.
    pub fn new(alloc: Global, room: usize, failing: &'a [u64]) -> Result<MemorySink<'a>, AllocError>
        ensures { IfOk result (λ sink. sink ≡ record
            { held = []; room = room; failing = failing.now; calls = 0; faults = 0 }) }
    {
        let bytes = Vec::with_capacity(alloc, room)?;
        Ok(MemorySink {
            bytes,
            room,
            failing,
            calls: 0,
            faults: 0,
        })
    }

    /// The bytes that it holds, in the order in which they came.
    pub fn held(&self) -> &[u8]
        ensures { result.now ≡ self.now.held }
    {
        &self.bytes
    }
}

impl<'a> Sink for MemorySink<'a> {
    ghost holds = { λ s. Some s.held };

    ghost faults = { λ s. s.faults };

    /// Takes as many bytes as there is room for.
    ///
    /// # Errors
    ///
    /// [`Failed`] exactly where this call is listed, or the sink is full and the slice isn't empty.
    fn write(&mut self, from: &[u8]) -> Result<usize, Failed>
        ensures bound { WritesAtMost result from.now }
        ensures some { IfOk result (λ count. 0 < length from.now → 0 < count) }
        ensures bytes { WriteAppends (Some self.old.held) (Some self.new.held) result from.now }
        ensures cause { HasCause self.old.faults self.new.faults result }
        ensures listed { IsTrue (list_any (λ call. call == self.old.calls) self.old.failing ||
            (nat_lt 0 (length from.now) && length self.old.held == self.old.room)) ↔ IsErr result }
        ensures count { IfOk result
            (λ count. count ≡ min (length from.now) (self.old.room - length self.old.held)) }
        ensures counters { self.new ≡ record self.old {
          held = self.new.held;
          calls = one_more self.old.calls;
          faults =
              (if is_ok result then self.old.faults else one_more self.old.faults);
        } }
    {
        let call = self.calls;
        self.calls = call.saturating_add(1);
        let room = self.room - self.bytes.len();
        if self.failing.contains(&call) || (room == 0 && !from.is_empty()) {
            self.faults = self.faults.saturating_add(1);
            return Err(Failed);
        }
        let count = room.min(from.len());
        match self.bytes.extend_from_slice(&from[..count]) {
            Ok(()) => Ok(count),
            Err(_) => unreachable!(),
        }
    }
}
