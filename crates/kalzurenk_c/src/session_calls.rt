// The calls of sessions.
ghost use Rattle.std.specs.Prelude.{◌≡◌, length, min};
ghost use Rattle.kalzurenk_c.specs.Given.{space_given, spans_of, start_given};
ghost use Rattle.kalzurenk_c.specs.Sessions.{IsOpened, OpensBox, space_over};
ghost use Rattle.kalzurenk_c.specs.Sizes.{place_sized, walk_sized};
ghost use Rattle.kalzurenk_c.specs.Told.{GivesWalk, TellsWalk, frame_limit};

use crate::given::{GivenModule, Region, Registers};
use crate::handle::{SessionHandle, SessionSlot};
use crate::refusal::{Place, Refusal, answered};
use crate::session::Session;
use crate::sizes::{place_sized, walk_sized};
use crate::told::{StackFrame, WalkEnd};
use std::alloc::Global;

/// A session on the heap.
fn boxed_session(
    alloc: Global,
    regions: &[Region<'static>],
    modules: &[GivenModule],
    limit: u32,
) -> Result<Box<Session>, Refusal>
    ensures { OpensBox (λ b. b.value) result (space_given regions.now modules.now) limit }
{
    let session = Session::open(alloc, regions, modules, limit)?;
    match Box::new(alloc, session) {
        Ok(boxed) => Ok(boxed),
        Err(_) => Err(Refusal::NoMemory),
    }
}

/// Opens a session over these modules, of whose walks each has at most `limit` frames.
///
/// The bytes of the regions stay as they are for ever. Each ELF module that can be is prepared. The
/// number that is answered is a status, as of [`kz_walk`](crate::kz_walk). Where it is 0 the session is in
/// `session`, which is as before otherwise.
#[unsafe(no_mangle)]
pub extern "C" fn kz_session_open(
    alloc: Global,
    regions: &[Region<'static>],
    modules: &[GivenModule],
    limit: u32,
    session: &mut SessionSlot,
    place: &mut Place,
) -> u32
    ensures { IsOpened (place_sized place.old.size (space_given regions.now modules.now)) limit
        (record { status = 0; session = session.old.value; place = place.old })
        (record { status = result; session = session.new.value; place = place.new }) }
{
    let opened = match place_sized(place) {
        Ok(()) => boxed_session(alloc, regions, modules, limit),
        Err(refusal) => Err(refusal),
    };
    match opened {
        Ok(boxed) => {
            *session = SessionSlot::of(boxed);
            0
        }
        Err(refusal) => refusal.told(place),
    }
}

/// Walks over a session, where each size is known.
fn walk_in_session(
    session: &Session,
    regions: &[Region<'_>],
    start: &Registers,
    interrupted: bool,
    frames: &mut [StackFrame],
    end: &mut WalkEnd,
    place: &Place,
) -> Result<(), Refusal>
    ensures { GivesWalk result
        (walk_sized place.now.size start.now.size end.old.size end.old.frame_size
        (space_over session.now.space (spans_of regions.now)))
        (min (frame_limit (length frames.old)) session.now.limit)
        (start_given start.now interrupted) frames.old frames.new end.old end.new }
{
    walk_sized(start, end, place)?;
    session.tell(regions, start, interrupted, frames, end)
}

/// Walks the stack of a stopped thread as [`kz_walk`](crate::kz_walk) does, over the modules of a
/// session. `regions` is memory beside the session's: the thread's stack. No memory is taken, so that the
/// status is never that memory ran out.
#[unsafe(no_mangle)]
pub extern "C" fn kz_session_walk(
    session: &mut SessionHandle,
    regions: &[Region<'_>],
    start: &Registers,
    interrupted: bool,
    frames: &mut [StackFrame],
    end: &mut WalkEnd,
    place: &mut Place,
) -> u32
    ensures told { TellsWalk
        (walk_sized place.old.size start.now.size end.old.size end.old.frame_size
        (space_over session.old.value.space (spans_of regions.now)))
        (min (frame_limit (length frames.old)) session.old.value.limit)
        (start_given start.now interrupted)
        (record { status = 0; frames = frames.old; end = end.old; place = place.old })
        (record { status = result; frames = frames.new; end = end.new; place = place.new }) }
    ensures space { session.new.value.space ≡ session.old.value.space }
    ensures limit { session.new.value.limit ≡ session.old.value.limit }
{
    let kept = session.as_mut();
    let told = walk_in_session(kept, regions, start, interrupted, frames, end, place);
    answered(told, place)
}

/// Lets a session go.
#[unsafe(no_mangle)]
pub extern "C" fn kz_session_close(session: SessionHandle) {
    drop(session.into_box());
}
