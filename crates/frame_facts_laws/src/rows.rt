//! What a row that says facts undoes, and what one that says a signal's frame gives.

ghost use Rattle.std.specs.Prelude.{List};
ghost use Rattle.memory_image.specs.Image.{Span};
ghost use Rattle.unwind_definitions.specs.Row.{RowInstructions};
ghost use Rattle.unwind_definitions.specs.Caller.{Columns, Evaluates};
ghost use Rattle.unwind_definitions.specs.State.{State, IsState, Shows};
ghost use Rattle.unwind_laws.specs.Undoes.{Undoes};
ghost use Rattle.frame_facts.specs.Facts.{Facts, StandsWith};
ghost use Rattle.frame_facts.specs.FactRows.{SaysFacts};
ghost use Rattle.frame_facts.specs.SignalFrames.{SignalFrame, SaysSignalFrame, StandsInSignal};
ghost use Rattle.frame_facts_laws.specs.SignalSteps.{GivesInterrupted, HasGeneralRegisters};

/// A row that says facts gives the caller of every state that stands with them: the caller's state,
/// and every other column as it was. DWARF 5, section 6.4.1.
///
/// It asks for no prologue, no body and no steps, so it holds in epilogues too, in a part of a
/// function that lies apart from it, after arguments were pushed, and after the stack was realigned.
pub fn row_that_says_facts_undoes()
    ensures { (evaluates : Evaluates) (image : List Span) (facts : Facts) (run : RowInstructions)
        (s t : State) (columns : Columns) →
        SaysFacts facts run → StandsWith image facts t s → IsState t → Shows columns s →
        Undoes evaluates image run t columns }
{}

/// A row that says a signal's frame gives, from every state that stands in one, the state that the
/// signal interrupted: where the kernel put its registers. DWARF 5, sections 2.5 and 6.4.1.
///
/// It asks nothing of where the interrupted stack pointer lies, so the handler may have run on an
/// alternate stack.
pub fn row_that_says_a_signal_frame_gives_the_interrupted_state()
    ensures { (image : List Span) (frame : SignalFrame) (run : RowInstructions) (s t : State)
        (columns : Columns) →
        SaysSignalFrame frame run → StandsInSignal image frame t s → Shows columns s →
        HasGeneralRegisters columns → GivesInterrupted image run t columns }
{}
