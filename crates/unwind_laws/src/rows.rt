//! Rows: how they are read, and what they undo.

ghost use Rattle.std.specs.Prelude.{◌≡◌, ℕ, List, [], None, Ok, false, true};
ghost use Rattle.memory_image.specs.Image.{Span};
ghost use Rattle.unwind_definitions.specs.Input.{Input};
ghost use Rattle.unwind_definitions.specs.Pointers.{Bases};
ghost use Rattle.unwind_definitions.specs.Instructions.{Coding, Rule, Instruction};
ghost use Rattle.unwind_definitions.specs.Entries.{Fde};
ghost use Rattle.unwind_definitions.specs.Row.{RowInstructions};
ghost use Rattle.unwind_definitions.specs.Caller.{Columns, Evaluates, Machine, caller_with};
ghost use Rattle.unwind_definitions.specs.Caller.{value_without_rule};
ghost use Rattle.unwind_definitions.specs.State.{CalleeSaved, RBP, State, value_of, IsState, Shows};
ghost use Rattle.unwind_definitions.specs.Prologue.{SystemV, Step, PrologueStep, frame_depth};
ghost use Rattle.unwind_definitions.specs.Prologue.{EachMayFollow};
ghost use Rattle.unwind_definitions.specs.Entered.{IsEntered};
ghost use Rattle.unwind_definitions.specs.Function.{Function, IsFunction};
ghost use Rattle.unwind_definitions.specs.DescribedRows.{IsBodyRow, IsPrologueRow, IsOutermostRow};
ghost use Rattle.unwind_definitions.specs.DescribedRows.{DescribesRows, HasRow};
ghost use Rattle.unwind_definitions.specs.Stopped.{StandsAfter};
ghost use Rattle.unwind_laws.specs.Reached.{ReadsRow};
ghost use Rattle.unwind_laws.specs.Running.{after_both, SaysRow, HasNoFault};
ghost use Rattle.unwind_laws.specs.Undoes.{Undoes, AreRules, columns_by_rules};

/// Reading the common program whole, and then a description's up to an address, one instruction
/// after another and up to the first fault, gives the row of the two whole programs.
pub fn reading_gives_row()
    ensures { (coding : Coding) (start pc : ℕ) (common own : Input) →
        ReadsRow coding start pc common own }
{}

/// The row of a frame whose prologue has run gives its caller: the caller's state, and every
/// other column as it was.
pub fn body_row_undoes()
    ensures { (evaluates : Evaluates) (image : List Span) (steps : List Step)
        (run : RowInstructions)
        (s t : State) (columns : Columns) →
        IsBodyRow steps run → EachMayFollow SystemV [] steps → IsEntered image false steps t s →
        IsState t → Shows columns s → Undoes evaluates image run t columns }
{}

/// The same inside a prologue, where save records may come late, as long as every register but a
/// set RBP holds what the caller had.
pub fn prologue_row_undoes()
    ensures { (evaluates : Evaluates) (image : List Span) (steps : List Step)
        (run : RowInstructions)
        (s t : State) (columns : Columns) →
        IsPrologueRow steps run → EachMayFollow SystemV [] steps → IsEntered image false steps t s →
        IsState t → Shows columns s →
        ((r : CalleeSaved) → (r ≡ RBP → frame_depth steps ≡ None) → value_of r s ≡ value_of r t) →
        Undoes evaluates image run t columns }
{}

/// The row of an outermost frame gives a state with the return address 0.
pub fn outermost_row_undoes()
    ensures { (evaluates : Evaluates) (image : List Span) (run : RowInstructions) (s t : State)
        (columns : Columns) →
        IsOutermostRow run → IsEntered image true [] t s → IsState t → Shows columns s → t.ra ≡ 0 →
        Undoes evaluates image run t columns }
{}

/// The rows of a function undo the steps that a state has run that is stopped in its prologue.
pub fn interrupted_row_undoes()
    ensures { (bases : Bases) (evaluates : Evaluates) (image : List Span) (f : Function) (fde : Fde)
        (done later : List PrologueStep) (t s : State) (columns : Columns) →
        IsFunction SystemV f → f.outermost ≡ false → DescribesRows bases f fde →
        StandsAfter image f done later t s → IsState t → Shows columns s →
        HasRow bases fde s.ra (λ run. Undoes evaluates image run t columns) }
{}

/// The caller by a row is what its rules give one after another, by ascending column and up to the
/// first fault, to the columns that have none.
pub fn caller_is_by_rules()
    ensures { (machine : Machine) (evaluates : Evaluates) (image : List Span) (columns : Columns)
        (cfa : ℕ) (run : RowInstructions) (rules : List (ℕ × Rule)) → AreRules run rules →
        caller_with machine evaluates image columns run (Ok cfa) ≡ columns_by_rules evaluates image columns cfa
        rules (value_without_rule machine columns cfa) }
{}

/// Running the common program and then a description's, with one remembered state, gives the rules,
/// the CFA and the argument size that the row says, where no instruction meets a fault.
pub fn running_says_row()
    ensures { (start : ℕ) (common own : List Instruction) → HasNoFault start common own →
        SaysRow (after_both common own) (record { common = common; own = own }) }
{}
