// What a delivery did.
ghost use Rattle.std.specs.Prelude.{◌≡◌, length, slice_get};

use stack_walks::{Room, Trail};
use std::marker::Model;
use unwind_arch::x86_64::Context;

/// How a delivery ended.
#[derive(Clone, Copy, Debug, PartialEq, Eq)]
pub enum Outcome {
    /// The landing pad of the accepting frame was installed.
    Installed,
    /// The search came to the end of the stack.
    EndOfStack,
    /// In the search a language table said to terminate, or wasn't readable.
    FatalPhase1,
    /// In a cleanup pass a language table said to terminate or wasn't readable, or the stack ended.
    FatalPhase2,
}

/// How a delivery into a room ended.
#[derive(Clone, Copy, Debug, PartialEq, Eq)]
pub struct Ending {
    /// How it ended.
    pub outcome: Outcome,
    /// The registers at the handler, where it was installed.
    pub landing: Option<Context>,
}

/// What a delivery did.
#[derive(Drop)]
pub struct Delivery {
    pub(crate) room: Room,
    pub(crate) ending: Ending,
}

impl Model for Delivery {
    ghost use Rattle.stack_deliver.specs.StackDelivery.{DeliveryValue};
    ghost use Rattle.stack_deliver.specs.Delivering.{delivery_in};

    ghost Value = { DeliveryValue };

    ghost view = { λ d. delivery_in d.room d.ending };
}

impl Delivery {
    /// The room in which the states and the cleanups stand.
    pub fn room(&self) -> &Room
        ensures visited { result.now.visited ≡ self.now.visited }
        ensures trail { result.now.trail ≡ self.now.trail }
    {
        &self.room
    }

    /// How many states the search visited.
    pub fn visited_len(&self) -> usize
        ensures { result ≡ length self.now.visited }
    {
        self.room.visited_len()
    }

    /// The state that the search visited at this place, from the start outwards.
    pub fn visited(&self, i: usize) -> Option<Context>
        ensures { result ≡ slice_get self.now.visited i }
    {
        self.room.visited(i)
    }

    /// How many cleanups ran.
    pub fn trail_len(&self) -> usize
        ensures { result ≡ length self.now.trail }
    {
        self.room.trail_len()
    }

    /// The cleanup at this place, from the innermost outwards.
    pub fn trail(&self, i: usize) -> Option<Trail>
        ensures { result ≡ slice_get self.now.trail i }
    {
        self.room.trail(i)
    }

    /// How it ended.
    pub fn outcome(&self) -> Outcome
        ensures { result ≡ self.now.outcome }
    {
        self.ending.outcome
    }

    /// The registers at the handler, where it was installed.
    pub fn landing(&self) -> Option<Context>
        ensures { result ≡ self.now.landing }
    {
        self.ending.landing
    }
}
