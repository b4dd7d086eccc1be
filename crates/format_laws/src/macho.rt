//! Frames in Mach-O modules.

ghost use Rattle.std.specs.Prelude.{◌≡◌, ◌-◌, ℕ, List, Option, IsTrue};
ghost use Rattle.std.specs.List.{Contains};
ghost use Rattle.memory_image.specs.Image.{Span};
ghost use Rattle.unwind_definitions.specs.Caller.{Columns};
ghost use Rattle.unwind_definitions.specs.State.{State, IsState, Shows};
ghost use Rattle.unwind_definitions.specs.Prologue.{SystemV, steps_of};
ghost use Rattle.unwind_definitions.specs.Entered.{IsEntered};
ghost use Rattle.unwind_definitions.specs.Function.{Function, IsFunction, in_body};
ghost use Rattle.macho_unwind_info.specs.X86_64.{opcode_of};
ghost use Rattle.format_definitions.specs.CompactStep.{MachoModule, compact_step, macho_step};
ghost use Rattle.format_definitions.specs.MachoModules.{IsOpcodeOf, DescribesMacho};
ghost use Rattle.format_laws.specs.CompactUndone.{OpcodeUndoes, MachoUndone};

/// A state that was entered by a function, and any address of its body: the opcode of a described
/// function gives the caller's state, and keeps every column that no state has, whatever
/// expressions would give. Of an outermost function the caller's return address is 0.
pub fn opcode_is_undone()
    ensures { (image : List Span) (frames : Option ℕ) (f : Function) (word : ℕ) (t s : State)
        (columns : Columns) (a : ℕ)
        → IsOpcodeOf image frames f (opcode_of word)
        → IsFunction SystemV f
        → IsState t
        → Shows columns s
        → IsEntered image f.outermost (steps_of f.prologue) t s
        → (IsTrue f.outermost → t.ra ≡ 0)
        → IsTrue (in_body f a)
        → OpcodeUndoes (compact_step image frames f.start a columns (opcode_of word)) columns t }
{}

/// The same of the step in a described module, which looks the address up.
pub fn macho_body_is_undone()
    ensures { (image : List Span) (m : MachoModule) (functions : List Function) (f : Function)
        (t s : State) (columns : Columns) (a : ℕ)
        → DescribesMacho image m functions
        → Contains functions f
        → IsFunction SystemV f
        → IsState t
        → Shows columns s
        → IsEntered image f.outermost (steps_of f.prologue) t s
        → (IsTrue f.outermost → t.ra ≡ 0)
        → IsTrue (in_body f a)
        → MachoUndone (macho_step image m (a - m.base) columns) columns t }
{}
