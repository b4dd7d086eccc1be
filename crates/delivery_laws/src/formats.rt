// Walks and deliveries through modules of three formats.
ghost use Rattle.std.specs.Prelude.{◌≡◌, ◌∷◌};
ghost use Rattle.memory_image.specs.Image.{IsLaidOut};
ghost use Rattle.unwind_definitions.specs.Delivery.{delivery_of};
ghost use Rattle.unwind_laws.specs.Three as three;
ghost use Rattle.format_laws.specs.Sample as mixed;
ghost use Rattle.stack_steps.specs.Modules.{AreApart};
ghost use Rattle.stack_steps.specs.SpaceViews.{formats_of};
ghost use Rattle.stack_steps.specs.Stopped.{StartsStopped};
ghost use Rattle.stack_walks.specs.Walking.{StartsChain};
ghost use Rattle.stack_deliver.specs.Delivering.{StartsValidChain};
ghost use Rattle.stack_steps.specs.FormatStopSample.{space_of_three};
ghost use Rattle.delivery_laws.specs.StateRegisters.{registers_of};

/// A space with an ELF, a Mach-O and a PE module, where a function of the Mach-O module was called
/// by one of the PE module, and that by two of the ELF module. A walk may start there, and so may a
/// delivery, in which the cleanup of the first ELF function runs and the second one's handler takes
/// the exception. The function does nothing.
pub fn calls_through_formats_start_walks_and_deliveries()
    ensures memory { IsLaidOut 0 space_of_three.image }
    ensures apart { AreApart 0 space_of_three.modules }
    ensures modules { formats_of space_of_three ≡ mixed.modules }
    ensures walk { StartsChain space_of_three (registers_of mixed.caught_start) 5
        mixed.functions mixed.caught_start mixed.caught_calls }
    ensures delivery { StartsValidChain space_of_three (registers_of mixed.caught_start)
        three.resumes 5 mixed.functions mixed.caught_start mixed.caught_calls }
    ensures delivered { delivery_of three.exception mixed.caught_start mixed.caught_calls
        ≡ mixed.caught_delivery }
{}

/// A walk over the same space may as well start where the Mach-O function was stopped in its body,
/// or the PE function in its body or after the push of its prologue. The function does nothing.
pub fn stops_in_formats_start_walks()
    ensures macho_body { StartsStopped space_of_three (registers_of mixed.caught_start) 5
        mixed.functions mixed.caught_start mixed.caught_frameless
        (mixed.caught_pushing ∷ mixed.outer_calls) }
    ensures pe_body { StartsStopped space_of_three (registers_of mixed.caught_room) 4
        mixed.functions mixed.caught_room mixed.caught_pushing mixed.outer_calls }
    ensures pe_prologue { StartsStopped space_of_three (registers_of mixed.pushed_room) 4
        mixed.functions mixed.pushed_room mixed.caught_pushing mixed.outer_calls }
{}
