//! What a described chain determines.

ghost use Rattle.std.specs.Prelude.{◌≡◌, ◌-◌, ℕ, Bool, List, []};
ghost use Rattle.std.specs.List.{AllPairs, AllByRecursion};
ghost use Rattle.memory_image.specs.Image.{Span};
ghost use Rattle.unwind_definitions.specs.Caller.{Columns, Evaluates};
ghost use Rattle.unwind_definitions.specs.State.{State, Shows};
ghost use Rattle.unwind_definitions.specs.Prologue.{Convention, Step, PrologueStep, EachMayFollow};
ghost use Rattle.unwind_definitions.specs.Prologue.{saves};
ghost use Rattle.unwind_definitions.specs.Entered.{IsEntered, stack_after};
ghost use Rattle.unwind_definitions.specs.Function.{Function};
ghost use Rattle.unwind_definitions.specs.Module.{Process, IsElfProcess, IsUncovered};
ghost use Rattle.unwind_definitions.specs.Chain.{Call, IsChain, states_of, StacksRise};
ghost use Rattle.unwind_definitions.specs.Delivery.{delivery_of};
ghost use Rattle.unwind_definitions.specs.Valid.{IsElfChain, IsElfValid};
ghost use Rattle.unwind_laws.specs.Apart.{FunctionsApart, LiesBetween};
ghost use Rattle.unwind_laws.specs.Walked.{CanStep, CanStepInside, Steps, IsElfWalk};

/// Stopped at an address in the body of a described function, the tables give the caller: a module,
/// its description of the function, that description's row, and the caller's columns.
pub fn call_is_undone()
    ensures { (p : Process) (evaluates : Evaluates) (functions : List Function) (a : ℕ) (s : State)
        (c : Call) (columns : Columns) →
        CanStep p functions a s c → Shows columns s → Steps p evaluates columns a c }
{}

/// The same of a state that is stopped in the prologue, by its own address.
pub fn part_of_a_call_is_undone()
    ensures { (p : Process) (evaluates : Evaluates) (functions : List Function)
        (done later : List PrologueStep) (s : State) (c : Call) (columns : Columns) →
        CanStepInside p functions done later s c → Shows columns s →
        Steps p evaluates columns s.ra c }
{}

/// From columns that show the start of a described chain its tables lead, call by call, to columns
/// that show each caller, up to the end.
pub fn chain_is_walked()
    ensures { (p : Process) (evaluates : Evaluates) (functions : List Function) (s : State)
        (calls : List Call) (columns : Columns) →
        IsElfChain p functions s calls → Shows columns s →
        IsElfWalk p evaluates functions columns s calls }
{}

/// The chain of a valid start is described.
pub fn valid_chain_is_described()
    ensures { (p : Process) (start : Columns) (resumes : List (ℕ × ℕ))
        (functions : List Function) (s : State) (calls : List Call) →
        IsElfValid p start resumes functions s calls → IsElfChain p functions s calls }
{}

/// Stack pointers strictly rise along a chain.
pub fn stack_pointers_rise()
    ensures { (p : Process) (functions : List Function) (s : State) (calls : List Call) →
        IsChain p.image (IsUncovered p) functions s calls → StacksRise (states_of s calls) }
{}

/// Two described chains of one start go through the same states, and what is delivered to them is
/// one, whatever lists of functions they are over.
pub fn delivery_is_one()
    ensures states { (p : Process) (functions others : List Function) (s : State)
        (calls more : List Call) →
        IsElfProcess p → IsElfChain p functions s calls → IsElfChain p others s more →
        states_of s calls ≡ states_of s more }
    ensures delivery { (p : Process) (functions others : List Function) (s : State)
        (calls more : List Call) (exception : ℕ) →
        IsElfProcess p → IsElfChain p functions s calls → IsElfChain p others s more →
        delivery_of exception s calls ≡ delivery_of exception s more }
{}

/// Over functions that share no address, two described chains of one start are one.
pub fn chain_is_one()
    ensures { (p : Process) (functions : List Function) (s : State) (calls more : List Call) →
        IsElfProcess p → AllPairs FunctionsApart functions →
        IsElfChain p functions s calls → IsElfChain p functions s more → calls ≡ more }
{}

/// What a prologue saves lies between its last stack pointer and the return address.
pub fn slots_lie_in_the_frame()
    ensures { (convention : Convention) (image : List Span) (outermost : Bool) (steps : List Step)
        (t s : State) → EachMayFollow convention [] steps → IsEntered image outermost steps t s →
        AllByRecursion (LiesBetween (stack_after (t.sp - 8) steps) t.sp) (saves steps) }
{}
