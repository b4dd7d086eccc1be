//! What a chain of facts determines.

ghost use Rattle.std.specs.Prelude.{◌≡◌, ◌≢◌, ℕ, Bool, List, ◌∷◌, false, true};
ghost use Rattle.unwind_definitions.specs.Caller.{Columns, Evaluates};
ghost use Rattle.unwind_definitions.specs.State.{State, IsState, Shows};
ghost use Rattle.unwind_definitions.specs.Prologue.{PrologueStep, steps_of};
ghost use Rattle.unwind_definitions.specs.Function.{Function};
ghost use Rattle.unwind_definitions.specs.Module.{Process, IsElfProcess};
ghost use Rattle.unwind_definitions.specs.Chain.{Call, states_of, StacksRise};
ghost use Rattle.unwind_definitions.specs.Valid.{IsElfChain};
ghost use Rattle.unwind_laws.specs.Walked.{CanStep, CanStepInside};
ghost use Rattle.frame_facts.specs.Facts.{Facts, StandsWith};
ghost use Rattle.frame_facts.specs.FactTables.{AreSaidAt};
ghost use Rattle.frame_facts.specs.FactChains.{FactFrame, chain_states, IsFactChain};
ghost use Rattle.frame_facts.specs.SignalFrames.{SignalFrame, StandsInSignal, IsSignalFrameAt};
ghost use Rattle.frame_facts.specs.StepFacts.{facts_in_prologue, called_frames};
ghost use Rattle.frame_facts_laws.specs.FactWalks.{StepsOut, IsFactWalk};
ghost use Rattle.frame_facts_laws.specs.SignalSteps.{HasGeneralRegisters, StepsToInterrupted};

/// Where facts are said at an address, the tables there give the caller of every state that stands
/// with them: the description that a scan finds, its row, and the caller's columns.
pub fn frame_with_facts_is_undone()
    ensures { (p : Process) (evaluates : Evaluates) (a : ℕ) (facts : Facts) (s t : State)
        (columns : Columns) →
        AreSaidAt p a facts → StandsWith p.image facts t s → IsState t → Shows columns s →
        StepsOut p evaluates columns a t }
{}

/// Where a signal's frame is said at an address, the tables there give the state that the signal
/// interrupted: the description that a scan finds, which is marked as a signal's, its row, and the
/// columns that it gives.
pub fn signal_frame_gives_the_interrupted_state()
    ensures { (p : Process) (a : ℕ) (frame : SignalFrame) (s t : State) (columns : Columns) →
        IsSignalFrameAt p a frame → StandsInSignal p.image frame t s → Shows columns s →
        HasGeneralRegisters columns → StepsToInterrupted p columns a t }
{}

/// From columns that show the start of a chain of facts its tables lead, state by state, to its
/// end. The start may have been interrupted where it stands.
pub fn fact_chain_is_walked()
    ensures { (p : Process) (evaluates : Evaluates) (interrupted : Bool) (s : State)
        (frames : List FactFrame) (columns : Columns) →
        IsFactChain p interrupted s frames → Shows columns s →
        IsFactWalk p evaluates interrupted columns s frames }
{}

/// Stack pointers strictly rise along a chain of facts.
pub fn stack_pointers_rise_by_facts()
    ensures { (p : Process) (interrupted : Bool) (s : State) (frames : List FactFrame) →
        IsFactChain p interrupted s frames → StacksRise (chain_states s frames) }
{}

/// A chain of calls of functions that the modules it passes describe is a chain of facts, with the
/// same states.
pub fn described_chain_is_a_fact_chain()
    ensures chain { (p : Process) (functions : List Function) (s : State) (calls : List Call) →
        IsElfChain p functions s calls → IsFactChain p false s (called_frames calls) }
    ensures states { (s : State) (calls : List Call) →
        chain_states s (called_frames calls) ≡ states_of s calls }
{}

/// The same where the innermost function, which may be an outermost one, was interrupted at an
/// instruction of its body.
pub fn body_stop_begins_a_fact_chain()
    ensures { (p : Process) (functions : List Function) (s : State) (c : Call)
        (calls : List Call) →
        IsState s → s.ra ≢ 0 → CanStep p functions s.ra s c →
        IsElfChain p functions c.caller calls →
        IsFactChain p true s (called_frames (c ∷ calls)) }
{}

/// The same where it was interrupted inside its prologue.
pub fn prologue_stop_begins_a_fact_chain()
    ensures { (p : Process) (functions : List Function) (done later : List PrologueStep)
        (s : State) (c : Call) (calls : List Call) →
        IsState s → s.ra ≢ 0 → CanStepInside p functions done later s c →
        IsElfChain p functions c.caller calls →
        IsFactChain p true s
        (record { facts = facts_in_prologue (steps_of done); caller = c.caller } ∷ called_frames calls) }
{}
