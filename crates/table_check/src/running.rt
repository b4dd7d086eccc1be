//! The frame of a prologue whose steps are run one after another. System V x86-64 psABI, section
//! 3.2.2.

ghost use Rattle.std.specs.Prelude.{◌≡◌, [], map};
ghost use Rattle.unwind_definitions.specs.DescribedRows.{ended_by};
ghost use Rattle.table_check.specs.ClaimViews.{prologue_step_of};
ghost use Rattle.table_check.specs.Frames.{IsFrameAfter, MayGoOn};
ghost use Rattle.frame_rows.specs.Walks.{IsBefore};
ghost use Rattle.table_check.specs.Running.{IsRunning, next_end_of};

use crate::claims::ClaimedStep;
use crate::prologue::FrameSoFar;

/// The frame that steps of a prologue leave, of which those before an offset have run.
#[derive(Clone, Copy)]
pub(crate) struct RunningFrame {
    /// What they leave on the stack.
    pub(crate) frame: FrameSoFar,
    // how many they are
    taken: usize,
}

impl RunningFrame {
    /// That of no steps, at a function's start.
    pub(crate) fn new(steps: &[ClaimedStep]) -> RunningFrame
        requires { MayGoOn 0 [] (map prologue_step_of steps.now) }
        ensures { IsRunning result 0 steps.now }
    {
        RunningFrame {
            frame: FrameSoFar::new(),
            taken: 0,
        }
    }

    /// Runs the steps that have ended so far after the function's start. None has run that ends
    /// after it.
    #[inline(always)]
    pub(crate) fn run_to(&mut self, steps: &[ClaimedStep], offset: u64)
        requires { IsRunning self.old offset steps.now }
        ensures running { IsRunning self.new offset steps.now }
        ensures frame { IsFrameAfter self.new.frame
            (ended_by offset (map prologue_step_of steps.now)) }
        ensures ahead { IsBefore offset (next_end_of self.new steps.now) }
    {
        for i in self.taken..steps.len() {
            if steps[i].end > offset {
                return;
            }
            self.frame.take(steps[i].step);
            self.taken = i + 1;
        }
    }

    /// How many bytes after the function's start the first step has ended that hasn't run, `None`
    /// where all have.
    pub(crate) fn next_end(&self, steps: &[ClaimedStep]) -> Option<u64>
        ensures { result ≡ next_end_of self.now steps.now }
    {
        match steps.get(self.taken) {
            Some(step) => Some(step.end),
            None => None,
        }
    }
}
