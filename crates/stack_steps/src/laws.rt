//! Laws as functions with empty bodies: what stands in their contracts is proved.

ghost use Rattle.std.specs.Prelude.{◌≡◌, ◌<◌, ℕ, Bool, List, None, Ok, Some};
ghost use Rattle.memory_image.specs.Image.{Span};
ghost use Rattle.memory_image.specs.Results.{result_map};
ghost use Rattle.unwind_definitions.specs.LanguageSearch.{address_of_call};
ghost use Rattle.unwind_arch.specs.declared.x86_64.Context.{Context};
ghost use Rattle.stack_steps.specs.Asking.{action_asked};
ghost use Rattle.stack_steps.specs.Languages.{asked_by_rust, frame_asks, rust_alone};
ghost use Rattle.stack_steps.specs.Frames.{DescribedFrame, Described, FrameAt};
ghost use Rattle.stack_steps.specs.Functions.{described_function, function_of};
ghost use Rattle.stack_steps.specs.Modules.{AreElf, SpaceValue};
ghost use Rattle.stack_steps.specs.Preparing.{Prepares, PreparesAt, prepared_len};
ghost use Rattle.stack_steps.specs.PreparedSample.{prepared_space, unprepared_space};
ghost use Rattle.stack_steps.specs.Stepping.{frame_of};

/// A module whose frame table describes one function becomes prepared, with all or alone, and whatever
/// [`Space::prepare`](crate::Space::prepare) makes of its space has an index there: what
/// [`step`](crate::step) says of prepared modules can be met. The function does nothing.
pub fn a_module_is_prepared()
    ensures prepares { Prepares unprepared_space 1 prepared_space }
    ensures at { PreparesAt unprepared_space 0x401006 prepared_space }
    ensures always { (count : ℕ) (space : SpaceValue) → Prepares unprepared_space count space →
        0 < prepared_len space 0x401006 }
    ensures indexed { prepared_len prepared_space 0x401006 ≡ 1 }
{}

/// Where no routine is C++'s, each frame asks what its language table says by the rule of Rust. The
/// function does nothing.
pub fn rust_alone_asks_by_rust()
    ensures { (image : List Span) (c : Context) (interrupted : Bool) (f : FrameAt) →
        frame_asks rust_alone image c interrupted f ≡
        result_map asked_by_rust (action_asked image c interrupted f) }
{}

/// Where all modules are ELF modules, a frame is found by the description of the function that is
/// described at the address asked, and none is found where no function is described there. The function
/// does nothing.
pub fn a_frame_is_that_of_the_described_function()
    ensures found { (space : SpaceValue) (c : Context) (interrupted : Bool) (f : DescribedFrame) →
        AreElf space.modules → frame_of space c interrupted ≡ Ok (Some (Described f)) →
        described_function space (address_of_call c.ra interrupted) ≡ Some (function_of f.found) }
    ensures none { (space : SpaceValue) (c : Context) (interrupted : Bool) →
        AreElf space.modules → described_function space (address_of_call c.ra interrupted) ≡ None →
        frame_of space c interrupted ≡ Ok None }
{}
