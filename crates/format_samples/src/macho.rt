//! Mach-O modules: one in which a stack ends, and one with frame data.

ghost use Rattle.std.specs.Prelude.{[]};
ghost use Rattle.std.specs.List.{AllPairs};
ghost use Rattle.unwind_laws.specs.Apart.{FunctionsApart};
ghost use Rattle.unwind_laws.specs.Returning as returning;
ghost use Rattle.format_definitions.specs.Modules.{IsDescribedChain, MachoCoversNot};
ghost use Rattle.format_definitions.specs.Process.{IsProcess};
ghost use Rattle.format_definitions.specs.MachoModules.{DescribesMacho};
ghost use Rattle.format_laws.specs.MachoSamples as macho;
ghost use Rattle.format_samples.specs.MachoWhole as samples;

/// A return address in a Mach-O module, after all of its functions: no function covers the address
/// before it, and the stack ends there.
pub fn stack_ends_in_a_macho_module()
    ensures process { IsProcess macho.image samples.ending_modules }
    ensures uncovered { MachoCoversNot macho.image macho.sample_module 0x100003000 }
    ensures chain { IsDescribedChain macho.image samples.ending_modules samples.ending_functions
        samples.past_the_last [] }
{}

/// A Mach-O module with a function and an outermost one that frame data describes, and a function
/// whose size stands in its code.
pub fn macho_module_with_frame_data_is_described()
    ensures process { IsProcess samples.image samples.modules }
    ensures described { DescribesMacho samples.image samples.module_of_them samples.functions }
{}

/// The functions of that module share no address, and a call of the first by the outermost one is a
/// described chain.
pub fn functions_of_a_chain_share_no_address()
    ensures apart { AllPairs FunctionsApart samples.functions }
    ensures chain { IsDescribedChain samples.image samples.modules samples.functions
        returning.start returning.calls }
{}
