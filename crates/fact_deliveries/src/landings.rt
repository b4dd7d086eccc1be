//! Deliveries that start at known stacks: in a small C++ program in which an exception enters landing
//! pads past pushed arguments, and a cleanup goes on in a part of its function that lies apart from it
//! (`examples/pushed_landings.cpp`); and through modules of three formats.

ghost use Rattle.std.specs.Prelude.{◌≡◌, ◌∷◌};
ghost use Rattle.memory_image.specs.Image.{IsLaidOut};
ghost use Rattle.unwind_definitions.specs.Delivery.{frames_of};
ghost use Rattle.unwind_laws.specs.Three as three;
ghost use Rattle.format_laws.specs.Sample as mixed;
ghost use Rattle.frame_facts.specs.FactDeliveries.{asked_frames_of, delivery_to};
ghost use Rattle.stack_steps.specs.Modules.{AreApart};
ghost use Rattle.stack_steps.specs.FormatStopSample.{space_of_three};
ghost use Rattle.delivery_laws.specs.StateRegisters.{registers_of};
ghost use Rattle.fact_walks.specs.Callers.{callers_of};
ghost use Rattle.stack_deliver.specs.KnownDeliveries.{StartsKnownDelivery};
ghost use Rattle.stack_deliver.specs.KnownThrows as throws;
ghost use Rattle.stack_deliver.specs.KnownThrows.{StartsKnownThrow};
ghost use Rattle.fact_deliveries.specs.CxxLanding as cxx;
ghost use Rattle.fact_deliveries.specs.GuardedProgram as program;
ghost use Rattle.fact_deliveries.specs.GuardedThrow as guarded;
ghost use Rattle.fact_deliveries.specs.LandingProgram as sample;
ghost use Rattle.fact_deliveries.specs.LandingSpace.{space, start};

/// A delivery may start in the program's innermost frame. Its cleanup is entered past two pushed
/// arguments, and goes on in a part of its function that has a description of its own: after a call
/// that is the last of the part, so that another part begins at the address. The handler is entered
/// past two arguments too. The limit may be as low as 5.
pub fn landings_past_arguments_are_known()
    ensures laid_out { IsLaidOut 0 space.image }
    ensures apart { AreApart 0 space.modules }
    ensures starts { StartsKnownDelivery space start sample.resumes 5 sample.in_raises
        sample.callers sample.asked }
    ensures delivered { delivery_to sample.exception (sample.in_raises ∷ sample.callers)
        sample.asked ≡ sample.delivery }
{}

/// By the rules of its languages, of which the program's personality is C++'s, an exception whose type
/// no handler names is taken by the handler of no type, which finds its number in RDX.
pub fn a_throw_of_cxx_is_known()
    ensures starts { StartsKnownThrow cxx.languages space start sample.resumes 5 sample.in_raises
        sample.callers cxx.asking }
    ensures delivered { throws.delivery_to sample.exception (sample.in_raises ∷ sample.callers)
        cxx.asking ≡ cxx.delivery }
{}

/// In a small program whose call leads to a chain of three action records, of which the first is a
/// cleanup's and the second a handler's of another type (`examples/guarded_handler.cpp`), the handler of
/// the third takes an exception of its type, and finds its number in RDX. The cleanup of the frame inside
/// runs before.
pub fn a_handler_after_a_cleanup_is_known()
    ensures laid_out { IsLaidOut 0 guarded.space.image }
    ensures apart { AreApart 0 guarded.space.modules }
    ensures starts { StartsKnownThrow guarded.languages guarded.space guarded.start
        guarded.resumes 5 program.in_raises program.callers guarded.asking }
    ensures delivered { throws.delivery_to guarded.exception
        (program.in_raises ∷ program.callers) guarded.asking ≡ guarded.delivery }
{}

/// So may a delivery where a function of a Mach-O module was called by one of a PE module, and that by
/// two of an ELF module, of which the first has a cleanup and the second a handler.
pub fn landings_through_formats_are_known()
    ensures starts { StartsKnownDelivery space_of_three (registers_of mixed.caught_start)
        three.resumes 5 mixed.caught_start (callers_of mixed.caught_calls)
        (asked_frames_of (frames_of mixed.caught_start mixed.caught_calls)) }
    ensures delivered { delivery_to three.exception
        (mixed.caught_start ∷ callers_of mixed.caught_calls)
        (asked_frames_of (frames_of mixed.caught_start mixed.caught_calls)) ≡
        mixed.caught_delivery }
{}
