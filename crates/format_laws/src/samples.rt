//! Modules byte for byte that meet the laws, states in their functions, and what the step answers
//! there.

ghost use Rattle.std.specs.Prelude.{◌≡◌, ◌-◌, List, [], ◌∷◌, Some, None, Err, false};
ghost use Rattle.memory_image.specs.Image.{IsLaidOut};
ghost use Rattle.unwind_definitions.specs.State.{IsState};
ghost use Rattle.unwind_definitions.specs.Prologue.{SystemV, Windows, steps_of};
ghost use Rattle.unwind_definitions.specs.Entered.{IsEntered};
ghost use Rattle.unwind_definitions.specs.Function.{Function, IsFunction};
ghost use Rattle.unwind_definitions.specs.Module.{DescribesModule};
ghost use Rattle.unwind_definitions.specs.Delivery.{delivery_of};
ghost use Rattle.unwind_definitions.specs.Stopped.{StandsAfter};
ghost use Rattle.unwind_laws.specs.Columns.{columns_of};
ghost use Rattle.unwind_laws.specs.Pushing as pushing;
ghost use Rattle.unwind_laws.specs.Three as three;
ghost use Rattle.unwind_laws.specs.Windows as windows;
ghost use Rattle.macho_unwind_info.specs.X86_64.{opcode_of};
ghost use Rattle.pe_unwind_info.specs.declared.x86_64.fault.FrameFault.TheVariants.{ChainLimit};
ghost use Rattle.format_definitions.specs.CompactStep.{compact_step, macho_step};
ghost use Rattle.format_definitions.specs.Modules.{IsDescribedChain};
ghost use Rattle.format_definitions.specs.Process.{IsProcess};
ghost use Rattle.format_definitions.specs.Stops.{IsDescribedStop};
ghost use Rattle.format_definitions.specs.Valid.{IsValid};
ghost use Rattle.format_definitions.specs.MachoModules.{IsOpcodeOf, DescribesMacho};
ghost use Rattle.format_definitions.specs.PeImage.{memory_of};
ghost use Rattle.format_definitions.specs.PeStep.{InFrame, pe_step};
ghost use Rattle.format_definitions.specs.PeModules.{IsInNoEpilog, DescribesRecord};
ghost use Rattle.format_definitions.specs.PeModules.{HasRecord, DescribesPe};
ghost use Rattle.format_definitions.specs.PeEpilogs.{StandsInEpilog};
ghost use Rattle.format_laws.specs.CompactUndone as compact;
ghost use Rattle.format_laws.specs.ElfSample as elf;
ghost use Rattle.format_laws.specs.Sample as mixed;
ghost use Rattle.format_laws.specs.Undone.{CanUndo};
ghost use Rattle.format_laws.specs.MachoSamples as macho;
ghost use Rattle.format_laws.specs.PeSamples as pe;
ghost use Rattle.format_laws.specs.PeUndone.{GivesState};

/// A function that pushes R15, R14 and RBX, stopped after the second push.
pub fn state_stands_in_a_pe_prologue()
    ensures function { IsFunction Windows pe.pushes_function }
    ensures stands { (d : DescribesPe pe.pushes_image pe.module_of_one (pe.pushes_function ∷ []))
        × (r : HasRecord pe.pushes_image pe.module_of_one d.table pe.pushes_function)
        × StandsAfter pe.pushes_image pe.pushes_function pe.pushes_done pe.pushes_later
        pe.pushes_caller pe.pushes_state
        × IsInNoEpilog (memory_of pe.pushes_image 0x140000000) r.function r.describes.first
        (pe.pushes_state.ra - 0x140000000) }
    ensures caller { IsState pe.pushes_caller }
    ensures step { GivesState (pe_step pe.pushes_image pe.module_of_one 0x1004
        (columns_of pe.pushes_state)) pe.pushes_caller }
{}

/// The same function in an ELF module, whose frame table tells late of what it pushed, stopped at
/// the same place.
pub fn state_stands_in_an_elf_prologue()
    ensures function { IsFunction SystemV elf.function }
    ensures described { DescribesModule elf.image elf.module_of_it (elf.function ∷ []) }
    ensures stands { StandsAfter elf.image elf.function pe.pushes_done pe.pushes_later elf.caller
        elf.state }
{}

/// A function with an epilog in its midst, which a record of version 2 lists, stopped before the
/// pop of the epilog and after it. After it the step doesn't read the slot that was popped.
pub fn states_stand_in_a_pe_epilog()
    ensures function { IsFunction Windows pe.epilog_function }
    ensures stand { (d : DescribesPe pe.epilog_image pe.module_of_one (pe.epilog_function ∷ []))
        × (r : HasRecord pe.epilog_image pe.module_of_one d.table pe.epilog_function)
        × StandsInEpilog pe.epilog_image pe.module_of_one r.function pe.epilog_function
        r.describes pe.epilog_caller pe.epilog_start
        × StandsInEpilog pe.epilog_image pe.module_of_one r.function pe.epilog_function
        r.describes pe.epilog_caller pe.epilog_state }
    ensures caller { IsState pe.epilog_caller }
    ensures before { GivesState (pe_step pe.epilog_image pe.module_of_one 0x12e0
        (columns_of pe.epilog_start)) pe.epilog_caller }
    ensures after { GivesState (pe_step pe.short_epilog_image pe.module_of_one 0x12e1
        (columns_of pe.epilog_state)) pe.epilog_caller }
{}

/// A function that pushes RBX and allocates 40, stopped in a call in its body, and a leaf.
pub fn pe_calls_are_entered()
    ensures functions { IsFunction Windows pe.room_function × IsFunction Windows pe.leaf_function }
    ensures described { DescribesPe pe.room_image pe.module_of_one (pe.room_function ∷
        pe.leaf_function ∷ []) }
    ensures entered { IsEntered pe.room_image false (steps_of pe.room_function.prologue)
        pe.room_caller pe.room_state }
    ensures leaf { IsEntered pe.room_image false [] pe.room_caller pe.leaf_state }
    ensures caller { IsState pe.room_caller }
    ensures step { GivesState (pe_step pe.room_image pe.module_of_one 0x104f
        (columns_of pe.room_state)) pe.room_caller }
    ensures leaf_step { GivesState (pe_step pe.room_image pe.module_of_one 0x1103
        (columns_of pe.leaf_state)) pe.room_caller }
{}

/// A function whose first two steps a chained record tells of, which sets RBP above the stack
/// pointer and stores an XMM register, stopped in a call in its body.
pub fn pe_call_by_chained_records_is_entered()
    ensures function { IsFunction Windows windows.function }
    ensures described { DescribesPe pe.chained_image pe.module_of_one (windows.function ∷ []) }
    ensures entered { IsEntered pe.chained_image false (steps_of windows.function.prologue)
        windows.caller windows.start }
    ensures caller { IsState windows.caller }
    ensures step { GivesState (pe_step pe.chained_image pe.module_of_one 0x101f
        (columns_of windows.start)) windows.caller }
{}

/// A record that goes on with itself describes no function, and a step there meets the limit of
/// chained records.
pub fn endless_pe_record_describes_nothing()
    ensures undescribed { (f : Function)
        → DescribesRecord pe.loop_image pe.module_of_one pe.loop_record f → ⊥ }
    ensures step { pe_step pe.loop_image pe.module_of_one 0x104f (columns_of pe.loop_state)
        ≡ Err (InFrame ChainLimit) }
{}

/// A Mach-O module with a frameless function and one that sets RBP as its frame pointer, each
/// stopped in a call in its body.
pub fn macho_calls_are_entered()
    ensures functions { IsFunction SystemV macho.frameless_function
        × IsFunction SystemV macho.framed_function }
    ensures described { DescribesMacho macho.image macho.sample_module (macho.frameless_function ∷
        macho.framed_function ∷ []) }
    ensures frameless { IsEntered macho.image false (steps_of macho.frameless_function.prologue)
        macho.frameless_caller macho.frameless_state }
    ensures framed { IsEntered macho.image false (steps_of macho.framed_function.prologue)
        macho.framed_caller macho.framed_state }
    ensures callers { IsState macho.frameless_caller × IsState macho.framed_caller }
    ensures frameless_step { compact.GivesState (macho_step macho.image macho.sample_module 0x100f
        (columns_of macho.frameless_state)) macho.frameless_caller }
    ensures framed_step { compact.GivesState (macho_step macho.image macho.sample_module 0x200f
        (columns_of macho.framed_state)) macho.framed_caller }
{}

/// Where an entry of a page names an opcode that isn't there, the module describes no functions,
/// and yet the step from a function before that entry is the same.
pub fn damaged_macho_page_describes_nothing()
    ensures undescribed { (functions : List Function)
        → DescribesMacho macho.damaged_image macho.sample_module functions → ⊥ }
    ensures step { compact.GivesState (macho_step macho.damaged_image macho.sample_module 0x100f
        (columns_of macho.frameless_state)) macho.frameless_caller }
{}

/// A function that saves all registers and whose size stands in its code, stopped in a call in its
/// body.
pub fn indirect_opcode_is_described()
    ensures function { IsFunction SystemV macho.indirect_function }
    ensures described { IsOpcodeOf macho.indirect_image None macho.indirect_function
        (opcode_of macho.indirect_word) }
    ensures entered { IsEntered macho.indirect_image false (steps_of
        macho.indirect_function.prologue) macho.indirect_caller macho.indirect_state }
    ensures step { compact.GivesCaller (compact_step macho.indirect_image None
        macho.indirect_function.start 0x100003017 (columns_of macho.indirect_state)
        (opcode_of macho.indirect_word)) macho.indirect_caller }
{}

/// A function that frame data describes, stopped in a call in its body.
pub fn dwarf_opcode_is_described()
    ensures described { IsOpcodeOf pushing.image (Some 0x500000) pushing.function
        (opcode_of macho.dwarf_word) }
    ensures entered { IsEntered pushing.image false (steps_of pushing.function.prologue)
        pushing.caller pushing.start }
{}

/// A function of a Mach-O module that was called by one of a PE module, and that by one of an ELF
/// module: a described chain.
pub fn calls_through_formats_are_a_chain()
    ensures memory { IsLaidOut 0 pe.room_image }
    ensures chain { IsDescribedChain pe.room_image mixed.modules mixed.functions
        macho.frameless_state mixed.calls }
    ensures step { CanUndo pe.room_image mixed.modules mixed.functions
        (macho.frameless_state.ra - 1) macho.frameless_state
        (record { callee = macho.frameless_function; caller = macho.frameless_caller }) }
{}

/// Deeper calls through the same modules, from a function of the Mach-O module by way of one of the
/// PE module to two of the ELF module: the start is valid, the cleanup of the first ELF function
/// runs, and the second one's handler takes the exception.
pub fn calls_through_formats_are_caught()
    ensures process { IsProcess pe.room_image mixed.modules }
    ensures valid { IsValid pe.room_image mixed.modules (columns_of mixed.caught_start)
        three.resumes mixed.functions mixed.caught_start mixed.caught_calls }
    ensures delivery { delivery_of three.exception mixed.caught_start mixed.caught_calls
        ≡ mixed.caught_delivery }
{}

/// In those calls the Mach-O function may as well have been stopped where it stands in its body,
/// and the PE function in its body or after the push of its prologue: its callers' states begin
/// described chains.
pub fn stops_in_formats_are_described()
    ensures macho_body { IsDescribedStop pe.room_image mixed.modules mixed.functions
        mixed.caught_start mixed.caught_frameless }
    ensures macho_chain { IsDescribedChain pe.room_image mixed.modules mixed.functions
        mixed.caught_room (mixed.caught_pushing ∷ mixed.outer_calls) }
    ensures pe_body { IsDescribedStop pe.room_image mixed.modules mixed.functions mixed.caught_room
        mixed.caught_pushing }
    ensures pe_prologue { IsDescribedStop pe.room_image mixed.modules mixed.functions
        mixed.pushed_room mixed.caught_pushing }
    ensures pe_chain { IsDescribedChain pe.room_image mixed.modules mixed.functions three.second
        mixed.outer_calls }
{}

/// The function with an epilog in its midst, stopped before the pop of the epilog and after it,
/// where nobody called its caller.
pub fn stops_in_a_pe_epilog_are_described()
    ensures process { IsProcess pe.epilog_image mixed.pe_modules }
    ensures before { IsDescribedStop pe.epilog_image mixed.pe_modules (pe.epilog_function ∷ [])
        pe.epilog_start mixed.epilog_call }
    ensures after { IsDescribedStop pe.epilog_image mixed.pe_modules (pe.epilog_function ∷ [])
        pe.epilog_state mixed.epilog_call }
    ensures chain { IsDescribedChain pe.epilog_image mixed.pe_modules (pe.epilog_function ∷ [])
        pe.epilog_caller [] }
{}
