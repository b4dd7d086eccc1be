//! Laws of the passes that the runs go by.

ghost use Rattle.std.specs.Prelude.{◌≡◌, ◌↔◌, ℕ, List, Option, Result};
ghost use Rattle.unwind_definitions.specs.Caller.{Columns, StepFault};
ghost use Rattle.unwinding_frames.specs.OneLine.{by_one, line_of};
ghost use Rattle.unwinding_frames.specs.Passes.{Marked, Undoing, Asking, Line, IsLine};
ghost use Rattle.unwinding_frames.specs.Seen.{FrameSeen};

/// Where one thing is seen at each context there is one line from each: the plain recursion on
/// frames. A law: the function does nothing.
pub fn lines_are_one()
    ensures { (sees : Marked Columns → Result (Option FrameSeen) StepFault)
        (undoing : Undoing Columns FrameSeen StepFault)
        (asks : Asking Columns FrameSeen StepFault (List ℕ))
        (limit : ℕ) (words : List ℕ) (start : Marked Columns)
        (line : Line Columns StepFault (List ℕ)) →
        IsLine (by_one sees undoing) asks limit words start line ↔
        (line ≡ line_of sees undoing asks limit words start) }
{}
