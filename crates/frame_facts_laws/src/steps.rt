//! What the steps of a prologue make known.

ghost use Rattle.std.specs.Prelude.{◌≡◌, ℕ, List, [], None, false, true};
ghost use Rattle.memory_image.specs.Image.{Span};
ghost use Rattle.unwind_definitions.specs.Row.{RowInstructions};
ghost use Rattle.unwind_definitions.specs.State.{CalleeSaved, RBP, State, value_of};
ghost use Rattle.unwind_definitions.specs.Prologue.{SystemV, Step, PrologueStep, EachMayFollow};
ghost use Rattle.unwind_definitions.specs.Prologue.{frame_depth, steps_of};
ghost use Rattle.unwind_definitions.specs.Entered.{IsEntered};
ghost use Rattle.unwind_definitions.specs.Function.{Function};
ghost use Rattle.unwind_definitions.specs.DescribedRows.{IsBodyRow, IsPrologueRow, IsOutermostRow};
ghost use Rattle.unwind_definitions.specs.Module.{Process};
ghost use Rattle.unwind_definitions.specs.Chain.{Call};
ghost use Rattle.unwind_laws.specs.Walked.{CanStep, CanStepInside};
ghost use Rattle.frame_facts.specs.Facts.{StandsWith};
ghost use Rattle.frame_facts.specs.FactRows.{SaysFacts};
ghost use Rattle.frame_facts.specs.FactTables.{AreSaidAt};
ghost use Rattle.frame_facts.specs.StepFacts.{facts_in_body, facts_in_prologue, outermost_facts};
ghost use Rattle.frame_facts.specs.StepFacts.{body_facts};

/// A state that was entered by the steps of a prologue stands with what they make known in the body,
/// and the row of a frame whose prologue has run says that.
pub fn body_has_facts()
    ensures stands { (image : List Span) (steps : List Step) (t s : State) →
        EachMayFollow SystemV [] steps → IsEntered image false steps t s →
        StandsWith image (facts_in_body steps) t s }
    ensures says { (steps : List Step) (run : RowInstructions) → IsBodyRow steps run →
        SaysFacts (facts_in_body steps) run }
{}

/// The same inside a prologue, where save records may come late, as long as every register but a
/// set RBP holds what the caller had.
pub fn prologue_has_facts()
    ensures stands { (image : List Span) (steps : List Step) (t s : State) →
        EachMayFollow SystemV [] steps → IsEntered image false steps t s →
        ((r : CalleeSaved) → (r ≡ RBP → frame_depth steps ≡ None) → value_of r s ≡ value_of r t) →
        StandsWith image (facts_in_prologue steps) t s }
    ensures says { (steps : List Step) (run : RowInstructions) → IsPrologueRow steps run →
        SaysFacts (facts_in_prologue steps) run }
{}

/// The same of an outermost function, whose caller has the return address 0.
pub fn outermost_function_has_facts()
    ensures stands { (image : List Span) (t s : State) → IsEntered image true [] t s → t.ra ≡ 0 →
        StandsWith image outermost_facts t s }
    ensures says { (run : RowInstructions) → IsOutermostRow run → SaysFacts outermost_facts run }
{}

/// At an address in the body of a described function its tables say what its prologue makes known,
/// and a state that was entered by that stands with it.
pub fn described_call_has_facts()
    ensures said { (p : Process) (functions : List Function) (a : ℕ) (s : State) (c : Call) →
        CanStep p functions a s c → AreSaidAt p a (body_facts c.callee) }
    ensures stands { (p : Process) (functions : List Function) (a : ℕ) (s : State) (c : Call) →
        CanStep p functions a s c → StandsWith p.image (body_facts c.callee) c.caller s }
{}

/// The same of a state that was interrupted in the prologue, by its own address and the steps that
/// have run.
pub fn described_stop_has_facts()
    ensures said { (p : Process) (functions : List Function) (done later : List PrologueStep)
        (s : State) (c : Call) →
        CanStepInside p functions done later s c →
        AreSaidAt p s.ra (facts_in_prologue (steps_of done)) }
    ensures stands { (p : Process) (functions : List Function) (done later : List PrologueStep)
        (s : State) (c : Call) →
        CanStepInside p functions done later s c →
        StandsWith p.image (facts_in_prologue (steps_of done)) c.caller s }
{}
