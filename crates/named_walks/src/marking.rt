// Walks whose states have their marks: whether a state stands before its instruction, and not after
// a call.
ghost use Rattle.std.specs.Prelude.{◌≡◌, ◌≤◌, true, vec_capacity};
ghost use Rattle.memory_image.specs.Results.{result_map};
ghost use Rattle.named_walks.specs.Marking.{marked_line_of, stopped_at};

use memory_image::{NoLedger, Steps};
use stack_steps::{DeliverError, Space, Stepped, Stepper};
use unwind_arch::x86_64::{Context, RSP};

/// Walks the stack of a thread that was stopped. The states stand in `visited` from the start
/// outwards, in places that are there; after an error some of them may.
///
/// # Errors
///
/// Those of `walk_into` of `stack_walks`.
pub(crate) fn walk_marked(
    space: &Space<'_>,
    thread: &Context,
    limit: u32,
    visited: &mut Vec<Stepped>,
) -> Result<(), DeliverError>
    requires { limit ≤ vec_capacity visited.old }
    ensures exact { result_map (λ done. visited.new.items) result ≡
        marked_line_of space.now limit (stopped_at thread.now) }
    ensures places { vec_capacity visited.new ≡ vec_capacity visited.old }
{
    visited.clear();
    let own = space.over_own_image();
    let mut stepper = Stepper::over(&own, thread.registers[RSP]);
    let mut state = Stepped {
        context: thread.copied(),
        signal: true,
    };
    let mut steps = Steps::new(NoLedger);
    for _ in 0..limit {
        visited.push_reserved(state);
        if !stepper.advance(&mut state, &mut steps)? {
            return Ok(());
        }
    }
    Err(DeliverError::FrameLimit)
}
