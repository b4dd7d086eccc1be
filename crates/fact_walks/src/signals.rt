//! Known stacks through signals' frames: what their stack pointers do, and a small program whose
//! stack is walked from a signal's handler.

ghost use Rattle.std.specs.Prelude.{Bool, List, ◌∷◌, true, false};
ghost use Rattle.memory_image.specs.Image.{IsLaidOut};
ghost use Rattle.unwind_definitions.specs.State.{State};
ghost use Rattle.unwind_definitions.specs.Chain.{StacksRise};
ghost use Rattle.frame_facts.specs.SignalFrames.{IsSignalLink, linux_signal_frame};
ghost use Rattle.frame_facts_laws.specs.SignalProgram as sample;
ghost use Rattle.frame_facts_laws.specs.SignalSteps.{HasGeneralRegisters};
ghost use Rattle.unwind_arch.specs.ContextViews.{columns_of};
ghost use Rattle.stack_steps.specs.Modules.{AreApart, SpaceValue};
ghost use Rattle.stack_steps.specs.SpaceViews.{process_of};
ghost use Rattle.stack_steps.specs.KnownStacks.{HasNoSignals, IsKnownStack};
ghost use Rattle.stack_walks.specs.KnownWalks.{StartsKnownStack};
ghost use Rattle.fact_walks.specs.SignalSpace.{space, in_work};

/// Where none of its frames is a signal's, the stack pointers of a known stack's states strictly rise
/// all along, as the clauses of walks say of those between signals' frames.
pub fn known_stack_without_signals_rises()
    ensures { (space : SpaceValue) (interrupted : Bool) (s : State) (callers : List State)
        (stack : IsKnownStack space interrupted s callers) →
        HasNoSignals space interrupted s callers stack → StacksRise (s ∷ callers) }
{}

/// A walk may start in a function that a signal's handler called. It goes on from the handler to the
/// code of the C library to which that returns, whose frame is the signal's; from there to the
/// function that the signal interrupted at its first instruction, of which that instruction's own
/// address is asked, since the byte before is another function's; and through its callers to
/// `_start`. The limit may be as low as 8. The signal's frame meets what the clause `signal` of
/// [`step`](stack_steps::step) asks, and from the interrupted function on no frame is a signal's.
pub fn walk_through_a_signal_frame_begins_a_known_stack()
    ensures laid_out { IsLaidOut 0 space.image }
    ensures apart { AreApart 0 space.modules }
    ensures frame { IsSignalLink (process_of space) false sample.in_restore
        linux_signal_frame sample.in_trapped }
    ensures registers { HasGeneralRegisters (columns_of in_work) }
    ensures starts { StartsKnownStack space in_work 8 true sample.in_work
        sample.callers }
    ensures calls { (stack : IsKnownStack space true sample.in_trapped
        sample.outer_callers) ×
        HasNoSignals space true sample.in_trapped sample.outer_callers stack }
{}
