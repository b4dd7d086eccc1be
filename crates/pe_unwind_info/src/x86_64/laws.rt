//! Laws of the definitions that the contracts of this crate cite, and samples. Nothing of it runs.
ghost use Rattle.std.specs.Prelude.{◌≡◌, ◌-◌, ℕ, List, Option, Some, None, Ok};
ghost use Rattle.pe_unwind_info.specs.Chain.{chain_of, operations_at, run_headed};
ghost use Rattle.pe_unwind_info.specs.Epilog.{sequence_of};
ghost use Rattle.pe_unwind_info.specs.EpilogGrammar.{IsSequence};
ghost use Rattle.pe_unwind_info.specs.EpilogList.{leading_epilogs, is_due};
ghost use Rattle.pe_unwind_info.specs.Frame.{info_in, chained_of};
ghost use Rattle.pe_unwind_info.specs.FrameOf.{Image, epilog_if_tested, frame_end_of};
ghost use Rattle.pe_unwind_info.specs.Header.{frame_register_of};
ghost use Rattle.pe_unwind_info.specs.Info.{Info};
ghost use Rattle.pe_unwind_info.specs.InfoOperations.{operations_in};
ghost use Rattle.pe_unwind_info.specs.Machine.{Registers, Stack, pop_return, then_ends};
ghost use Rattle.pe_unwind_info.specs.declared.x86_64.function_table.RuntimeFunction.{RuntimeFunction};
ghost use Rattle.pe_unwind_info.specs.declared.x86_64.registers.Register.{Register};

/// Where all records of a function can be read, and the code at an address isn't that of an epilog,
/// the frame there is one run over the operations of its records, the first one's from the offset
/// of the address on, and then the popped return address.
pub fn frame_is_one_run()
    ensures { (memory : Image) (stack : Stack) (address : ℕ) (function : RuntimeFunction)
        (regs : Registers) (first : Info) (chained : List Info)
        → info_in function.unwind_info_address (memory function.unwind_info_address) ≡ Ok first
        → chain_of memory 32 (chained_of first) ≡ Ok chained
        → epilog_if_tested (is_due function.end_address address (leading_epilogs (operations_in first)))
        memory (frame_register_of first.header) function.end_address address ≡ Ok None
        → frame_end_of memory stack address (Some function) regs
        ≡ then_ends (run_headed stack (operations_at (address - function.begin_address) first
        chained) regs) (pop_return stack) }
{}

/// What is read of bytes as an epilog is what the grammar says.
pub fn epilogs_are_read_by_the_grammar()
    ensures { (frame : Option Register) (bytes : List ℕ)
        → IsSequence frame bytes (sequence_of frame bytes) }
{}
