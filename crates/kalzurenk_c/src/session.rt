// Modules that are kept and prepared, and the stacks that are walked one after another.
ghost use Rattle.std.specs.Prelude.{◌≡◌, length, min};
ghost use Rattle.kalzurenk_c.specs.Given.{space_given, spans_of, start_given};
ghost use Rattle.kalzurenk_c.specs.Sessions.{OpensSession, space_over};
ghost use Rattle.kalzurenk_c.specs.Told.{GivesWalk, frame_limit};

use crate::given::{GivenModule, Region, Registers, space_of, start_of};
use crate::outward::WalkStart;
use crate::refusal::Refusal;
use crate::sample::unwind_sample;
use crate::told::{StackFrame, WalkEnd, frame_limit};
use stack_steps::Space;
use std::alloc::Global;
use std::marker::Model;

/// Modules that are kept from walk to walk, with the indexes of their frame tables.
///
/// Contracts see the space of the modules, and the most frames of a walk.
#[derive(Drop)]
pub struct Session {
    space: Space<'static>,
    limit: u32,
}

impl Model for Session {
    ghost use Rattle.kalzurenk_c.specs.SessionValues.{SessionValue};

    ghost Value = { SessionValue };

    ghost view = { λ s. record { space = s.space; limit = s.limit } };
}

impl Session {
    /// A session over these modules, which are prepared.
    pub(crate) fn open(
        alloc: Global,
        regions: &[Region<'static>],
        modules: &[GivenModule],
        limit: u32,
    ) -> Result<Session, Refusal>
        ensures { OpensSession result (space_given regions.now modules.now) limit }
    {
        let mut space = space_of(alloc, regions, modules)?;
        let Ok(_prepared) = space.prepare() else {
            return Err(Refusal::NoMemory);
        };
        Ok(Session { space, limit })
    }

    /// The space of the modules.
    pub(crate) fn space(&self) -> &Space<'static>
        ensures { result.now ≡ self.now.space }
    {
        &self.space
    }

    /// Walks a stack that lies in these regions, and tells the frames and their end. Nothing is told
    /// otherwise. No memory is taken.
    pub(crate) fn tell(
        &self,
        regions: &[Region<'_>],
        start: &Registers,
        interrupted: bool,
        frames: &mut [StackFrame],
        end: &mut WalkEnd,
    ) -> Result<(), Refusal>
        ensures { GivesWalk result (space_over self.now.space (spans_of regions.now))
            (min (frame_limit (length frames.old)) self.now.limit) (start_given start.now interrupted)
            frames.old frames.new end.old end.new }
    {
        let mut start = WalkStart {
            state: start_of(start, interrupted),
            limit: frame_limit(frames).min(self.limit),
        };
        unwind_sample(&self.space, regions, &mut start, frames, end)
    }
}
