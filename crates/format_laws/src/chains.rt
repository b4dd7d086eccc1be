//! Chains of calls through modules of three formats.

ghost use Rattle.std.specs.Prelude.{◌≡◌, ◌-◌, ℕ, List, None, Ok};
ghost use Rattle.memory_image.specs.Image.{Span};
ghost use Rattle.unwind_definitions.specs.Caller.{Columns};
ghost use Rattle.unwind_definitions.specs.State.{State, Shows};
ghost use Rattle.unwind_definitions.specs.Function.{Function};
ghost use Rattle.unwind_definitions.specs.Chain.{Call};
ghost use Rattle.format_definitions.specs.CompactStep.{MachoModule, macho_step};
ghost use Rattle.format_definitions.specs.Modules.{FormatModule, MachoCoversNot};
ghost use Rattle.format_definitions.specs.Modules.{IsDescribedChain};
ghost use Rattle.format_laws.specs.Undone.{FormatUndone, CanUndo, IsWalk};

/// A call of a function is undone by the module that the function lies in, of whatever format it
/// is.
pub fn format_call_is_undone()
    ensures { (image : List Span) (modules : List FormatModule) (functions : List Function)
        (a : ℕ) (s : State) (c : Call) (columns : Columns)
        → (can : CanUndo image modules functions a s c)
        → Shows columns s
        → FormatUndone image can.lies.home columns a c }
{}

/// A described chain through such modules is walked call by call, from columns that show its start;
/// stack pointers strictly rise.
pub fn format_chain_is_walked()
    ensures { (image : List Span) (modules : List FormatModule) (functions : List Function)
        (s : State) (calls : List Call) (columns : Columns)
        → IsDescribedChain image modules functions s calls
        → Shows columns s
        → IsWalk image modules functions columns s calls }
{}

/// At an address that no function of a Mach-O module's listing covers the step finds no function.
pub fn uncovered_macho_address_ends_the_stack()
    ensures { (image : List Span) (m : MachoModule) (a : ℕ) (columns : Columns)
        → MachoCoversNot image m a
        → macho_step image m (a - m.base) columns ≡ Ok None }
{}
