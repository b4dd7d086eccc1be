// Place for what a walk or a delivery visits.
ghost use Rattle.std.specs.Prelude.{◌≡◌, ◌<◌, ◌≤◌, ◌∷◌, ◌++◌, [], length, slice_get, IfOk, true};
ghost use Rattle.std.specs.Prelude.{false};

use std::alloc::{AllocError, Global};
use std::marker::Model;
use unwind_arch::x86_64::Context;

/// A cleanup that ran.
#[derive(Clone, Copy, Debug, PartialEq, Eq)]
pub struct Trail {
    /// The landing pad at which the cleanup begins.
    pub pad: u64,
    /// The stack pointer with which it was installed.
    pub sp: u64,
}

/// Place for the states that a walk or a delivery visits and for the cleanups that it runs.
///
/// It is reserved once, 168 bytes for each place, and not filled: memory that no state reaches
/// isn't touched. A walk into a room takes no more, so a sampler that keeps one allocates nothing.
///
/// Contracts see the states, the cleanups, and of how many of each there are the places.
#[derive(Drop)]
pub struct Room {
    pub(crate) visited: Vec<Context>,
    trail: Vec<Trail>,
    limit: u32,
}

impl Model for Room {
    ghost use Rattle.std.specs.Prelude.{◌≡◌, vec_capacity};
    ghost use Rattle.stack_walks.specs.Walking.{RoomValue};

    ghost Value = { RoomValue };

    ghost view = { λ r. record
        { visited = r.visited.items; trail = r.trail.items; limit = r.limit } };

    ghost invariant = { λ r. (vec_capacity r.visited ≡ r.limit) ×
        (vec_capacity r.trail ≡ r.limit) };
}

impl Room {
    /// An empty room for at most `limit` states and as many cleanups.
    ///
    /// # Errors
    ///
    /// `AllocError` where memory ran out.
    pub fn new(alloc: Global, limit: u32) -> Result<Room, AllocError>
        ensures { IfOk result (λ room. room ≡ record { visited = []; trail = []; limit = limit }) }
    {
        Ok(Room {
            visited: Vec::with_capacity(alloc, limit as usize)?,
            trail: Vec::with_capacity(alloc, limit as usize)?,
            limit,
        })
    }

    /// The most states that it has places for.
    pub fn limit(&self) -> u32
        ensures { result ≡ self.now.limit }
    {
        self.limit
    }

    /// How many states stand in it.
    pub fn visited_len(&self) -> usize
        ensures { result ≡ length self.now.visited }
    {
        self.visited.len()
    }

    /// The state at this place, from the start outwards.
    pub fn visited(&self, i: usize) -> Option<Context>
        ensures { result ≡ slice_get self.now.visited i }
    {
        self.visited.get(i).copied()
    }

    /// How many cleanups stand in it.
    pub fn trail_len(&self) -> usize
        ensures { result ≡ length self.now.trail }
    {
        self.trail.len()
    }

    /// The cleanup at this place, from the innermost outwards.
    pub fn trail(&self, i: usize) -> Option<Trail>
        ensures { result ≡ slice_get self.now.trail i }
    {
        self.trail.get(i).copied()
    }

    /// Puts one more state into its place. It answers whether there was a place for it: nothing
    /// changes where as many states stand in the room as it has places for.
    pub fn visit(&mut self, state: Context) -> bool
        ensures put { length self.old.visited < self.old.limit → (result ≡ true) ×
            (self.new ≡ record self.old { visited = self.old.visited ++ state ∷ [] }) }
        ensures full { self.old.limit ≤ length self.old.visited → (result ≡ false) ×
            (self.new ≡ self.old) }
    {
        if self.visited.len() >= self.limit as usize {
            return false;
        }
        self.visited.push_reserved(state);
        true
    }

    /// Puts one more cleanup into its place. It answers whether there was a place for it: nothing
    /// changes where as many cleanups stand in the room as it has places for.
    pub fn run_cleanup(&mut self, cleanup: Trail) -> bool
        ensures put { length self.old.trail < self.old.limit → (result ≡ true) ×
            (self.new ≡ record self.old { trail = self.old.trail ++ cleanup ∷ [] }) }
        ensures full { self.old.limit ≤ length self.old.trail → (result ≡ false) ×
            (self.new ≡ self.old) }
    {
        if self.trail.len() >= self.limit as usize {
            return false;
        }
        self.trail.push_reserved(cleanup);
        true
    }

    /// Takes out what stands in it. The places stay.
    pub fn clear(&mut self)
        ensures { self.new ≡ record self.old { visited = []; trail = [] } }
    {
        self.visited.clear();
        self.trail.clear();
    }
}
