//! Modules of three formats, in each of which a function has a handler.

ghost use Rattle.std.specs.Prelude.{◌≡◌, ◌∷◌, [], Some, Ok};
ghost use Rattle.unwind_definitions.specs.Delivery.{delivery_of};
ghost use Rattle.unwind_laws.specs.Columns.{columns_of};
ghost use Rattle.unwind_laws.specs.Three as three;
ghost use Rattle.pe_unwind_info.specs.Handlers.{handler_of};
ghost use Rattle.format_definitions.specs.Process.{IsProcess};
ghost use Rattle.format_definitions.specs.Valid.{IsValid};
ghost use Rattle.format_definitions.specs.MachoModules.{DescribesMacho};
ghost use Rattle.format_definitions.specs.PeImage.{memory_of};
ghost use Rattle.format_definitions.specs.PeModules.{DescribesPe};
ghost use Rattle.format_laws.specs.Sample.{modules};
ghost use Rattle.format_laws.specs.MachoSamples.{sample_module};
ghost use Rattle.format_laws.specs.PeSamples.{module_of_one};
ghost use Rattle.format_samples.specs.Handlers as samples;

/// A function of a Mach-O module has a handler for the calls in a part of it: its opcode names a
/// personality, and the section leads to its language table. So has one of a PE module, whose unwind
/// record names a handler for exceptions, and whose handler data is the language table; and one of an
/// ELF module. The first was called by the second, and that by the third: these calls are valid, from
/// the first and from the second function on, and the handler there takes an exception.
pub fn functions_with_handlers_are_described()
    ensures process { IsProcess samples.image modules }
    ensures macho_function { DescribesMacho samples.image sample_module
        (samples.macho_function ∷ []) }
    ensures pe_function { DescribesPe samples.image module_of_one (samples.pe_function ∷ []) }
    ensures pe_handler { handler_of (memory_of samples.image 0x140000000)
        (Some samples.handled_record) ≡ Ok (Some samples.handler) }
    ensures from_macho { IsValid samples.image modules (columns_of samples.in_macho) []
        samples.functions samples.in_macho samples.calls_from_macho }
    ensures from_pe { IsValid samples.image modules (columns_of samples.in_pe) []
        samples.functions samples.in_pe samples.calls_from_pe }
    ensures macho_delivery { delivery_of three.exception samples.in_macho samples.calls_from_macho ≡
        samples.caught_at samples.in_macho 0x100001020 }
    ensures pe_delivery { delivery_of three.exception samples.in_pe samples.calls_from_pe ≡
        samples.caught_at samples.in_pe 0x140001020 }
{}
