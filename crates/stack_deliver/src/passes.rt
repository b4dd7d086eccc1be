// The passes over a stack: the search for a frame whose language takes the exception, and then the
// cleanups on the way to it. Itanium C++ ABI, exception handling, level I, section 1.3.
ghost use Rattle.std.specs.Prelude.{◌≡◌, ◌≤◌, ◌<◌, ◌+◌, ◌*◌, ◌++◌, ◌∷◌, Err, [], false};
ghost use Rattle.std.specs.Prelude.{length, Some, OnOk};
ghost use Rattle.stack_deliver.specs.Passes.{end_by, ending_at, cleanup_of};
ghost use Rattle.stack_deliver.specs.Passes.{cleanup_at, resume_at, passes_of};
ghost use Rattle.stack_walks.specs.VisitViews.{stop_shown};
ghost use Rattle.stack_deliver.specs.PassViews.{end_shown};
ghost use Rattle.stack_deliver.specs.PassViews.{GivesCleanupsRun};
ghost use Rattle.memory_image.specs.Results.{result_map};
ghost use Rattle.stack_deliver.specs.Resumes.{return_of};
ghost use Rattle.stack_steps.specs.Languages.{languages_of};
ghost use Rattle.stack_walks.specs.FrameVisits.{cleaning};
ghost use Rattle.stack_walks.specs.ContextsMet.{contexts_met};
ghost use Rattle.stack_deliver.specs.Searches.{met_in_passes};
ghost use Rattle.stack_steps.specs.Ticking.{RisesWithin};

use crate::outcome::{Ending, Outcome};
use crate::resumes::Resumes;
use eh_frame::RowRoom;
use fde_finders::FDESearchResult;
use memory_image::{Ledger, Steps};
use stack_steps::{DeliverError, Languages, Stepped, Stepper};
use stack_walks::{Pass, Phase, Room, Stop, Trail, mark_of, unwind_frames_over};
use unwind_arch::x86_64::{Context, RSP};

/// How a cleanup pass ends. Where a landing pad is entered, the pass leaves the registers with which
/// it is.
#[derive(Clone, Copy)]
enum PassEnd {
    /// The program ends with it, or the stack has ended.
    Fatal,
    /// The handler of the kept frame is entered.
    Installed,
    /// The landing pad of a frame inside the handler's is entered.
    Cleanup(u64),
}

const FATAL: Ending = Ending {
    outcome: Outcome::FatalPhase2,
    landing: None,
};

/// The handler is entered with these registers.
fn installed(context: Context) -> Ending
    ensures { result ≡ ending_at context }
{
    Ending {
        outcome: Outcome::Installed,
        landing: Some(context),
    }
}

/// How a pass ends where it stops, toward the frame with the kept mark. `state` is that of the frame at
/// which it stops.
fn pass_end(stop: Stop, state: &mut Stepped, exception: u64, kept: u64) -> PassEnd
    ensures { end_shown state.new.context result ≡
        end_by exception kept (Some (stop_shown state.old stop)) }
{
    let Some(pad) = stop.action().pad() else {
        return PassEnd::Fatal;
    };
    let is_kept = mark_of(state) == kept;
    stop.enter(&mut state.context, exception, pad);
    if is_kept {
        PassEnd::Installed
    } else {
        PassEnd::Cleanup(pad)
    }
}

/// A cleanup pass from a state toward the frame with the kept mark.
fn cleanup<'t, 'a, L: Ledger>(
    languages: &Languages<'_>,
    stepper: &mut Stepper<'_, 't, 'a>,
    state: &mut Stepped,
    exception: u64,
    kept: u64,
    limit: u32,
    room: &mut Room,
    place: &mut Option<FDESearchResult<'a>>,
    rows: &mut RowRoom<'a>,
    steps: &mut Steps<L>,
) -> Result<PassEnd, DeliverError>
where
    't: 'a,
    requires within { limit ≤ room.old.limit }
    ensures exact { result_map (end_shown state.new.context) result ≡
        cleanup_of (languages_of languages.now) stepper.old exception kept limit
        state.old.context }
    ensures stays { room.new ≡ room.old }
    ensures same { stepper.new ≡ stepper.old }
    ensures ticks { RisesWithin stepper.old
        (contexts_met (Some (cleaning (languages_of languages.now))) stepper.old limit
        state.old.context false) steps.old.number steps.new.number }
{
    // It begins after a call.
    state.signal = false;
    let pass = Pass {
        phase: Phase::Cleanup,
        languages: *languages,
    };
    match unwind_frames_over(Some(pass), stepper, state, limit, room, place, rows, steps)? {
        None => Ok(PassEnd::Fatal),
        Some(stop) => Ok(pass_end(stop, state, exception, kept)),
    }
}

/// Puts the cleanup at a landing pad on the trail. The registers with which the pad was entered become
/// those after the cleanup.
fn resume(
    pad: u64,
    context: &mut Context,
    resumes: &Resumes,
    limit: u32,
    room: &mut Room,
) -> Result<(), DeliverError>
    requires within { limit ≤ room.old.limit }
    ensures full { limit ≤ length room.old.trail → result ≡ Err DeliverError.PassLimit }
    ensures resumed { length room.old.trail < limit →
        result_map (λ _. context.new) result ≡
        resume_at pad context.old (return_of resumes.now pad) }
    ensures trail { OnOk result (room.new ≡
        record room.old { trail = room.old.trail ++ cleanup_at pad context.old ∷ [] }) }
    ensures kept { (room.new.visited ≡ room.old.visited) × (room.new.limit ≡ room.old.limit) }
{
    if room.trail_len() >= limit as usize {
        return Err(DeliverError::PassLimit);
    }
    let _ = room.run_cleanup(Trail {
        pad,
        sp: context.registers[RSP],
    });
    match resumes.find(pad) {
        None => Err(DeliverError::NoResume(pad)),
        Some(ret) => {
            context.ra = ret;
            Ok(())
        }
    }
}

/// The cleanup passes from the start on, each but the first from after the cleanup before it, until
/// one enters the handler of the frame with the kept mark or ends the program.
pub(crate) fn passes<'t, 'a, L: Ledger>(
    languages: &Languages<'_>,
    stepper: &mut Stepper<'_, 't, 'a>,
    start: &Context,
    exception: u64,
    kept: u64,
    resumes: &Resumes,
    limit: u32,
    room: &mut Room,
    place: &mut Option<FDESearchResult<'a>>,
    rows: &mut RowRoom<'a>,
    steps: &mut Steps<L>,
) -> Result<Ending, DeliverError>
where
    't: 'a,
    requires within { limit ≤ room.old.limit }
    requires empty { room.old.trail ≡ [] }
    ensures exact { GivesCleanupsRun result room.new
        (passes_of (languages_of languages.now) stepper.old exception kept resumes.now limit limit
        start.now) }
    ensures kept { (room.new.visited ≡ room.old.visited) × (room.new.limit ≡ room.old.limit) }
    ensures same { stepper.new ≡ stepper.old }
    ensures ticks { RisesWithin stepper.old
        (met_in_passes (languages_of languages.now) stepper.old exception kept resumes.now limit
        limit start.now) steps.old.number steps.new.number }
{
    let mut state = Stepped {
        context: *start,
        signal: false,
    };
    loop {
        let end = cleanup(
            languages, stepper, &mut state, exception, kept, limit, room, place, rows, steps,
        )?;
        match end {
            PassEnd::Fatal => return Ok(FATAL),
            PassEnd::Installed => return Ok(installed(state.context)),
            PassEnd::Cleanup(pad) => resume(pad, &mut state.context, resumes, limit, room)?,
        }
    }
}
