//! Stops that steps undo, and from which stacks are walked, as functions with empty bodies: what
//! stands in a contract here is proved.

ghost use Rattle.std.specs.Prelude.{◌∷◌, []};
ghost use Rattle.memory_image.specs.Image.{IsLaidOut};
ghost use Rattle.unwind_laws.specs.Pushing as pushing;
ghost use Rattle.format_definitions.specs.Calls.{IsDescribedCall};
ghost use Rattle.format_definitions.specs.Stops.{IsDescribedStop};
ghost use Rattle.format_laws.specs.Sample as mixed;
ghost use Rattle.format_laws.specs.PeSamples.{epilog_function, epilog_start, epilog_state};
ghost use Rattle.stack_steps.specs.FormatStopSample.{space_of_three, space_with_epilog};
ghost use Rattle.stack_steps.specs.Modules.{AreApart};
ghost use Rattle.stack_steps.specs.SpaceViews.{formats_of};
ghost use Rattle.stack_steps.specs.Stopped.{StartsStopped};
ghost use Rattle.stack_steps.specs.StopSample.{image, modules, function, call, before_steps};
ghost use Rattle.stack_steps.specs.StopSample.{after_push};
ghost use Rattle.stack_steps.specs.StopSample.{after_set, after_late_push, after_allocation};
ghost use Rattle.stack_steps.specs.StopSample.{after_store, in_body_of_it, pushing_space};
ghost use Rattle.stack_steps.specs.StopSample.{stopped_at, before_push, after_the_push};

/// A function that pushes RBP, sets it, pushes RBX, allocates and stores R12 is described wherever
/// it is stopped: before its first step, after each one, and in its body. Its table tells of RBX
/// and R12 only where the body begins.
pub fn stops_after_each_step_are_described()
    ensures before { IsDescribedStop image modules (function ∷ []) before_steps call }
    ensures push { IsDescribedStop image modules (function ∷ []) after_push call }
    ensures set { IsDescribedStop image modules (function ∷ []) after_set call }
    ensures late_push { IsDescribedStop image modules (function ∷ []) after_late_push call }
    ensures allocation { IsDescribedStop image modules (function ∷ []) after_allocation call }
    ensures store { IsDescribedStop image modules (function ∷ []) after_store call }
    ensures body { IsDescribedStop image modules (function ∷ []) in_body_of_it call }
{}

/// A walk may start at the push of a function that pushes RBX, before which the word at the stack
/// pointer is the return address, and in that function's body. The limit may be as low as 2.
pub fn walks_from_stops_are_described()
    ensures before { StartsStopped pushing_space (stopped_at 0x401000) 2 (pushing.function ∷ [])
        (pushing.state 0x401000 0x7000 9) before_push [] }
    ensures body { StartsStopped pushing_space (stopped_at 0x401006) 2 (pushing.function ∷ [])
        pushing.start after_the_push [] }
{}

/// A call of a Mach-O function by one of a PE module is described over a space with modules of three
/// formats, and so are stops in their bodies and in the prologue of the PE function, and over a
/// space with another PE module stops in the epilog of its function.
pub fn calls_and_stops_in_formats_are_described()
    ensures laid_out { IsLaidOut 0 space_of_three.image }
    ensures apart { AreApart 0 space_of_three.modules }
    ensures called { IsDescribedCall space_of_three.image (formats_of space_of_three)
        mixed.functions mixed.caught_start mixed.caught_frameless }
    ensures macho_body { IsDescribedStop space_of_three.image (formats_of space_of_three)
        mixed.functions mixed.caught_start mixed.caught_frameless }
    ensures pe_body { IsDescribedStop space_of_three.image (formats_of space_of_three)
        mixed.functions mixed.caught_room mixed.caught_pushing }
    ensures pe_prologue { IsDescribedStop space_of_three.image (formats_of space_of_three)
        mixed.functions mixed.pushed_room mixed.caught_pushing }
    ensures before_pop { IsDescribedStop space_with_epilog.image (formats_of space_with_epilog)
        (epilog_function ∷ []) epilog_start mixed.epilog_call }
    ensures after_pop { IsDescribedStop space_with_epilog.image (formats_of space_with_epilog)
        (epilog_function ∷ []) epilog_state mixed.epilog_call }
{}
