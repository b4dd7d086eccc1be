//! Functions of PE modules that were stopped in a prologue and in an epilog, and what the step
//! answers there.

ghost use Rattle.std.specs.Prelude.{[], ◌∷◌, ◌++◌};
ghost use Rattle.unwind_definitions.specs.Stopped.{StandsAfter};
ghost use Rattle.unwind_laws.specs.Columns.{columns_of};
ghost use Rattle.unwind_laws.specs.Windows as windows;
ghost use Rattle.format_definitions.specs.Modules.{IsDescribedChain};
ghost use Rattle.format_definitions.specs.Process.{IsProcess};
ghost use Rattle.format_definitions.specs.Stops.{IsDescribedStop};
ghost use Rattle.format_definitions.specs.PeModules.{DescribesLeaf, DescribesPe};
ghost use Rattle.format_definitions.specs.PeStep.{pe_step};
ghost use Rattle.format_laws.specs.Sample as mixed;
ghost use Rattle.format_laws.specs.PeSamples as pe;
ghost use Rattle.format_laws.specs.PeUndone.{GivesState};
ghost use Rattle.format_samples.specs.EpilogSamples as epilogs;
ghost use Rattle.format_samples.specs.StopSamples as samples;

/// A function whose first two steps a chained record tells of, stopped after the first of its own
/// steps, which allocates, and after the second, which sets RBP above the stack pointer.
pub fn stops_after_chained_steps_are_described()
    ensures process { IsProcess pe.chained_image mixed.pe_modules }
    ensures allocated { StandsAfter pe.chained_image windows.function
        (pe.inherited_steps ++ samples.allocation) (samples.setting ++ samples.stores)
        windows.caller samples.allocated_state
        × IsDescribedStop pe.chained_image mixed.pe_modules (windows.function ∷ [])
        samples.allocated_state samples.chained_call }
    ensures set { StandsAfter pe.chained_image windows.function
        (pe.inherited_steps ++ (samples.allocation ++ samples.setting)) samples.stores
        windows.caller samples.set_state
        × IsDescribedStop pe.chained_image mixed.pe_modules (windows.function ∷ [])
        samples.set_state samples.chained_call }
    ensures chain { IsDescribedChain pe.chained_image mixed.pe_modules (windows.function ∷ [])
        windows.caller [] }
    ensures allocated_step { GivesState (pe_step pe.chained_image pe.module_of_one 0x1004
        (columns_of samples.allocated_state)) windows.caller }
    ensures set_step { GivesState (pe_step pe.chained_image pe.module_of_one 0x1009
        (columns_of samples.set_state)) windows.caller }
{}

/// A function with an epilog at its end, whose record of version 1 lists none, stopped before each
/// of the epilog's instructions: before the stack pointer is given back, before RBX is popped, and
/// before the return.
pub fn stops_in_an_unlisted_epilog_are_described()
    ensures process { IsProcess samples.returning_image mixed.pe_modules }
    ensures add { IsDescribedStop samples.returning_image mixed.pe_modules
        (samples.returning_function ∷ []) samples.at_add samples.returning_call }
    ensures pop { IsDescribedStop samples.returning_image mixed.pe_modules
        (samples.returning_function ∷ []) samples.at_pop samples.returning_call }
    ensures returns { IsDescribedStop samples.returning_image mixed.pe_modules
        (samples.returning_function ∷ []) samples.at_return samples.returning_call }
    ensures chain { IsDescribedChain samples.returning_image mixed.pe_modules
        (samples.returning_function ∷ []) samples.returning_caller [] }
    ensures add_step { GivesState (pe_step samples.returning_image pe.module_of_one 0x103a
        (columns_of samples.at_add)) samples.returning_caller }
    ensures pop_step { GivesState (pe_step samples.returning_image pe.module_of_one 0x103e
        (columns_of samples.at_pop)) samples.returning_caller }
    ensures returns_step { GivesState (pe_step samples.returning_image pe.module_of_one 0x103f
        (columns_of samples.at_return)) samples.returning_caller }
{}

/// A leaf whose body begins after its first instructions, stopped before its body.
pub fn stop_before_the_body_of_a_leaf_is_described()
    ensures process { IsProcess pe.room_image mixed.pe_modules }
    ensures leaf { (d : DescribesPe pe.room_image pe.module_of_one (samples.waiting_leaf ∷ []))
        × DescribesLeaf pe.module_of_one d.table samples.waiting_leaf }
    ensures stop { IsDescribedStop pe.room_image mixed.pe_modules (samples.waiting_leaf ∷ [])
        pe.leaf_state samples.leaf_call }
    ensures chain { IsDescribedChain pe.room_image mixed.pe_modules (samples.waiting_leaf ∷ [])
        pe.room_caller [] }
    ensures step { GivesState (pe_step pe.room_image pe.module_of_one 0x1104
        (columns_of pe.leaf_state)) pe.room_caller }
{}

/// A function that sets RBP above the stack pointer, stopped before the `lea` of its epilog, with
/// the stack pointer below what its prologue left.
pub fn stop_before_the_lea_of_an_epilog_is_described()
    ensures process { IsProcess epilogs.framed_image mixed.pe_modules }
    ensures stop { IsDescribedStop epilogs.framed_image mixed.pe_modules
        (epilogs.framed_function ∷ []) epilogs.at_lea epilogs.framed_call }
    ensures chain { IsDescribedChain epilogs.framed_image mixed.pe_modules
        (epilogs.framed_function ∷ []) samples.returning_caller [] }
    ensures step { GivesState (pe_step epilogs.framed_image pe.module_of_one 0x103a
        (columns_of epilogs.at_lea)) samples.returning_caller }
{}

/// A function whose record of version 2 says that an epilog ends with the function, stopped before
/// the pop of this epilog and before its return.
pub fn stops_in_an_epilog_that_ends_with_the_function_are_described()
    ensures process { IsProcess epilogs.listed_image mixed.pe_modules }
    ensures pop { IsDescribedStop epilogs.listed_image mixed.pe_modules
        (epilogs.listed_function ∷ []) samples.at_pop epilogs.listed_call }
    ensures returns { IsDescribedStop epilogs.listed_image mixed.pe_modules
        (epilogs.listed_function ∷ []) samples.at_return epilogs.listed_call }
    ensures chain { IsDescribedChain epilogs.listed_image mixed.pe_modules
        (epilogs.listed_function ∷ []) samples.returning_caller [] }
    ensures pop_step { GivesState (pe_step epilogs.listed_image pe.module_of_one 0x103e
        (columns_of samples.at_pop)) samples.returning_caller }
    ensures returns_step { GivesState (pe_step epilogs.listed_image pe.module_of_one 0x103f
        (columns_of samples.at_return)) samples.returning_caller }
{}
