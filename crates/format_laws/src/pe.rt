//! Frames in PE modules.

ghost use Rattle.std.specs.Prelude.{◌-◌, ◌<◌, ◌≤◌, ℕ, List, [], IsTrue, false};
ghost use Rattle.std.specs.List.{Contains};
ghost use Rattle.memory_image.specs.Image.{Span};
ghost use Rattle.unwind_definitions.specs.Caller.{Columns};
ghost use Rattle.unwind_definitions.specs.State.{State, IsState, Shows};
ghost use Rattle.unwind_definitions.specs.Prologue.{Windows, PrologueStep, steps_of};
ghost use Rattle.unwind_definitions.specs.Entered.{IsEntered};
ghost use Rattle.unwind_definitions.specs.Function.{Function, IsFunction, in_body};
ghost use Rattle.unwind_definitions.specs.Stopped.{StandsAfter};
ghost use Rattle.format_definitions.specs.PeImage.{PeModule, memory_of};
ghost use Rattle.format_definitions.specs.PeStep.{pe_step};
ghost use Rattle.format_definitions.specs.PeModules.{IsInNoEpilog, DescribesLeaf};
ghost use Rattle.format_definitions.specs.PeModules.{HasRecord, DescribesPe};
ghost use Rattle.format_definitions.specs.PeEpilogs.{StandsInEpilog};
ghost use Rattle.format_laws.specs.PeUndone.{CallUndone};

/// A state that was entered by a described function, and any address of the function's body: the
/// step from there gives the caller's state, and keeps every column but those of RSI and RDI that
/// no state has.
pub fn pe_body_is_undone()
    ensures { (image : List Span) (m : PeModule) (functions : List Function) (f : Function)
        (t s : State) (columns : Columns) (a : ℕ)
        → DescribesPe image m functions
        → Contains functions f
        → IsFunction Windows f
        → IsState t
        → Shows columns s
        → IsEntered image f.outermost (steps_of f.prologue) t s
        → IsTrue (in_body f a)
        → CallUndone (pe_step image m (a - m.base) columns) columns t }
{}

/// The same of a state that stands after any number of the steps of a function's prologue, where
/// its address isn't in an epilog.
pub fn pe_prologue_is_undone()
    ensures { (image : List Span) (m : PeModule) (functions : List Function) (f : Function)
        (t s : State) (columns : Columns) (done later : List PrologueStep)
        → (d : DescribesPe image m functions)
        → (r : HasRecord image m d.table f)
        → IsFunction Windows f
        → IsState t
        → Shows columns s
        → StandsAfter image f done later t s
        → IsInNoEpilog (memory_of image m.base) r.function r.describes.first (s.ra - m.base)
        → CallUndone (pe_step image m (s.ra - m.base) columns) columns t }
{}

/// The same of a state that stands anywhere in an epilog.
pub fn pe_epilog_is_undone()
    ensures { (image : List Span) (m : PeModule) (functions : List Function) (f : Function)
        (t s : State) (columns : Columns)
        → (d : DescribesPe image m functions)
        → (r : HasRecord image m d.table f)
        → IsFunction Windows f
        → IsState t
        → Shows columns s
        → StandsInEpilog image m r.function f r.describes t s
        → CallUndone (pe_step image m (s.ra - m.base) columns) columns t }
{}

/// The same at any address of a leaf.
pub fn pe_leaf_is_undone()
    ensures { (image : List Span) (m : PeModule) (functions : List Function) (f : Function)
        (t s : State) (columns : Columns) (a : ℕ)
        → (d : DescribesPe image m functions)
        → DescribesLeaf m d.table f
        → IsFunction Windows f
        → IsState t
        → Shows columns s
        → IsEntered image false [] t s
        → f.start ≤ a
        → a < f.end
        → CallUndone (pe_step image m (a - m.base) columns) columns t }
{}
