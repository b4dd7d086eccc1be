// Steps and deliveries whose counts of steps are known.
ghost use Rattle.std.specs.Prelude.{false};
ghost use Rattle.memory_image.specs.Image.{IsLaidOut};
ghost use Rattle.unwind_laws.specs.Three as three;
ghost use Rattle.stack_steps.specs.Modules.{AreApart};
ghost use Rattle.stack_steps.specs.StopSample.{pushing_space, stopped_at};
ghost use Rattle.stack_steps.specs.Ticking.{IsScannedAt, CountsWithin};
ghost use Rattle.stack_deliver.specs.Delivering.{StartsValidChain};
ghost use Rattle.stack_deliver.specs.Searches.{HasOneHeader};
ghost use Rattle.delivery_laws.specs.CountedSpaces.{space_by_header};
ghost use Rattle.delivery_laws.specs.StateRegisters.{registers_of};

/// A space with one module that names the header of its frame table. The header lists three
/// descriptions, a number of two binary digits, and a delivery over the calls of these functions may
/// start there. The function does nothing.
pub fn a_header_of_three_has_two_digits()
    ensures memory { IsLaidOut 0 space_by_header.image }
    ensures apart { AreApart 0 space_by_header.modules }
    ensures delivery { StartsValidChain space_by_header (registers_of three.start) three.resumes 8
        three.functions three.start three.calls }
    ensures header { HasOneHeader space_by_header 2 }
    ensures counts { CountsWithin space_by_header 2 }
{}

/// A frame in a module that names its frame table and isn't prepared, so that no search is counted.
/// The function does nothing.
pub fn a_frame_is_scanned()
    ensures memory { IsLaidOut 0 pushing_space.image }
    ensures apart { AreApart 0 pushing_space.modules }
    ensures scanned { IsScannedAt pushing_space (stopped_at 0x401006) false }
{}
