//! What holds of generated chains, as functions with empty bodies.

ghost use Rattle.std.specs.Prelude.{◌<◌, ◌≤◌, List};
ghost use Rattle.memory_image.specs.Image.{Span};
ghost use Rattle.unwind_definitions.specs.Chain.{IsChain};
ghost use Rattle.unwind_definitions.specs.Delivery.{delivery_of};
ghost use Rattle.unwind_definitions.specs.Module.{Process, IsUncovered, DescribesModule};
ghost use Rattle.generated_chains.specs.Caught.{IsCaught};
ghost use Rattle.generated_chains.specs.ValidCase.{IsValidCase};
ghost use Rattle.generated_chains.specs.Outlines.{outlines};
ghost use Rattle.generated_chains.specs.Code.{functions_of};
ghost use Rattle.generated_chains.specs.Calls.{state_of, calls_of};
ghost use Rattle.generated_chains.specs.Memory.{image_of, module_by, by_frames, by_header};
ghost use Rattle.generated_chains.specs.Memory.{HoldsStack, HoldsTables};

/// A generated chain is a valid case, by its frame table and by its header table, whatever columns
/// show its innermost state.
pub fn generated_case_is_valid(count: u32, seed: u64)
    requires some { 0 < count }
    requires few { count ≤ 100000 }
    ensures frames { IsValidCase by_frames seed count }
    ensures header { IsValidCase by_header seed count }
{}

/// The states and calls of a generated chain are a chain over its functions, in any process whose
/// memory holds its stack.
pub fn states_are_a_chain(count: u32, seed: u64)
    ghost process: { Process }
    requires few { count ≤ 100000 }
    requires holds { HoldsStack process.image seed (outlines seed count) }
    ensures { IsChain process.image (IsUncovered process) (functions_of (outlines seed count))
        (state_of seed (outlines seed count)) (calls_of seed (outlines seed count)) }
{}

/// A module whose tables are the generated ones describes the functions, by its frame table and by
/// its header table.
pub fn tables_describe_functions(count: u32, seed: u64)
    ghost image: { List Span }
    requires few { count ≤ 100000 }
    requires holds { HoldsTables image (outlines seed count) }
    ensures frames { DescribesModule image (module_by by_frames (outlines seed count))
        (functions_of (outlines seed count)) }
    ensures header { DescribesModule image (module_by by_header (outlines seed count))
        (functions_of (outlines seed count)) }
{}

/// The memory of a generated chain holds its tables and its stack.
pub fn memory_holds_tables_and_stack(count: u32, seed: u64)
    requires some { 0 < count }
    requires few { count ≤ 100000 }
    ensures tables { HoldsTables (image_of seed (outlines seed count)) (outlines seed count) }
    ensures stack { HoldsStack (image_of seed (outlines seed count)) seed (outlines seed count) }
{}

/// An exception in the innermost call of a generated chain visits the state of each function, and
/// its outermost function catches it.
pub fn exception_is_caught(count: u32, seed: u64, exception: u64)
    requires some { 0 < count }
    requires few { count ≤ 100000 }
    ensures { IsCaught (delivery_of exception (state_of seed (outlines seed count))
        (calls_of seed (outlines seed count))) count }
{}
