// Stacks whose threads were stopped after a pop. Nothing of this runs.
ghost use Rattle.std.specs.Prelude.{◌≡◌, ◌∷◌, [], true};
ghost use Rattle.stack_walks.specs.declared.walk_end.EndReason.TheVariants.{Outermost};
ghost use Rattle.stack_walks.specs.KnownWalks.{StartsKnownStack};
ghost use Rattle.stack_walks.specs.WalkEnds.{ComesTo, contexts_to_end};
ghost use Rattle.popped_registers.specs.PoppedRegisters.{kept_space, popped_in};
ghost use Rattle.popped_registers.specs.PoppedSample as sample;
ghost use Rattle.popped_registers.specs.RealignedSample as realigned;

/// A function pushes RBX, and a thread was stopped at its return, after the pop, with its stack from
/// its stack pointer on. RBX was popped; without that its stack would be cut at its first state, and
/// with it the stack is walked to its end: of each of its frames it is then known how its caller's
/// state follows. The function does nothing.
pub fn a_popped_register_is_kept()
    ensures popped { popped_in sample.space 3 sample.start ≡ sample.popped }
    ensures cut { contexts_to_end sample.space 3 sample.start true ≡ sample.start ∷ [] }
    ensures states { contexts_to_end (kept_space sample.space 3 sample.start) 3 sample.start true ≡
        sample.start ∷ sample.caller ∷ sample.outside ∷ [] }
    ensures end { ComesTo Outermost (kept_space sample.space 3 sample.start) 3 sample.start true }
    ensures known { StartsKnownStack (kept_space sample.space 3 sample.start) sample.start 3 true
        sample.at_return sample.callers }
{}

/// The same of a function that aligns its stack pointer, so that expressions tell where its registers
/// lie: a thread was stopped after it had popped RBX, before it popped RBP. The function does nothing.
pub fn a_register_popped_from_an_expressions_slot_is_kept()
    ensures popped { popped_in realigned.space 3 realigned.start ≡ realigned.popped }
    ensures cut { contexts_to_end realigned.space 3 realigned.start true ≡ realigned.start ∷ [] }
    ensures states { contexts_to_end (kept_space realigned.space 3 realigned.start) 3
        realigned.start true ≡ realigned.start ∷ realigned.caller ∷ realigned.outside ∷ [] }
    ensures end { ComesTo Outermost (kept_space realigned.space 3 realigned.start) 3
        realigned.start true }
{}
