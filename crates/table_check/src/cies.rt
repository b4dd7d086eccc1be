//! Common information entries as compilers emit them. LSB, section on `.eh_frame`.

ghost use Rattle.std.specs.Prelude.{◌≡◌, ◌++◌, MatchOption, Some, replicate, ℕ};
ghost use Rattle.std.specs.Bool.{Decides};
ghost use Rattle.std.specs.Option.{option_map};
ghost use Rattle.unwind_definitions.specs.PointerEncodings.{pcrel_sdata4};
ghost use Rattle.unwind_definitions.specs.FrameTable.{IsCell, IsEmittedAugmentation, IsEmittedCie};
ghost use Rattle.unwind_definitions.specs.FrameTable.{IsEmittedPersonality, entry_rules};
ghost use Rattle.encoded_pointers.specs.PointerViews.{pointer_of};
ghost use Rattle.eh_frame.specs.Letters.{byte_of};
ghost use Rattle.eh_frame.specs.EntryViews.{cie_of};
ghost use Rattle.table_check.specs.Emitted.{HasEmittedFactors, HasEmittedLetters};

use eh_frame::{Cie, DwEhPe, Pointer};
use memory_image::MemoryImage;

// Four signed bytes, relative to their place, and an address that is found there.
const RELATIVE: u8 = 0x1b;

const INDIRECT: u8 = 0x9b;

/// Whether a common information entry is of the form that compilers emit.
pub(crate) fn is_emitted_cie(image: &MemoryImage<'_>, cie: &Cie<'_>) -> bool
    ensures { Decides result (IsEmittedCie image.now (cie_of cie.now)) }
{
    has_emitted_factors(cie) && has_emitted_letters(image, cie) && is_emitted_program(cie.program())
}

fn has_emitted_factors(cie: &Cie<'_>) -> bool
    ensures { Decides result (HasEmittedFactors (cie_of cie.now)) }
{
    cie.version() == 1
        && cie.code_alignment() == 1
        && cie.data_alignment() == -8
        && cie.return_column().0 == 16
}

fn has_emitted_letters(image: &MemoryImage<'_>, cie: &Cie<'_>) -> bool
    ensures { Decides result (HasEmittedLetters image.now (cie_of cie.now)) }
{
    is_emitted_augmentation(cie.augmentation())
        && is_relative(cie.address_encoding())
        && (cie.lsda_encoding().is_none() || is_relative(cie.lsda_encoding()))
        && is_emitted_personality(image, cie)
}

fn is_emitted_augmentation(text: &[u8]) -> bool
    ensures { Decides result (IsEmittedAugmentation text.now) }
{
    matches!(text, b"zR" | b"zPR" | b"zPLR")
}

fn is_relative(encoding: Option<DwEhPe>) -> bool
    ensures { Decides result (option_map byte_of encoding ≡ Some pcrel_sdata4) }
{
    match encoding {
        Some(encoding) => encoding.0 == RELATIVE,
        None => false,
    }
}

// Whether the personality, where there is one, is named by an encoding that compilers choose, and
// the cell that it is found in, if it is, holds a word.
fn is_emitted_personality(image: &MemoryImage<'_>, cie: &Cie<'_>) -> bool
    ensures { Decides result (MatchOption (cie_of cie.now).letters.personality (Unit {0})
        (IsEmittedPersonality image.now)) }
{
    match (cie.personality_encoding(), cie.personality()) {
        (Some(encoding), Some(pointer)) => {
            encoding.0 == RELATIVE || (encoding.0 == INDIRECT && is_cell(image, pointer))
        }
        _ => true,
    }
}

// Whether a pointer is one to a cell that holds a word.
fn is_cell(image: &MemoryImage<'_>, pointer: Pointer) -> bool
    ensures { Decides result (IsCell image.now (pointer_of pointer)) }
{
    match pointer {
        Pointer::Direct(_) => false,
        Pointer::Indirect(cell) => image.read_u64(cell).is_some(),
    }
}

// Whether a program says the rules at a function's start, and nothing after them.
fn is_emitted_program(program: &[u8]) -> bool
    ensures { Decides result ((nops : ℕ) × (program.now ≡ entry_rules ++ replicate nops 0)) }
{
    match program {
        [0x0c, 0x07, 0x08, 0x90, 0x01, nops @ ..] => are_nops(nops),
        _ => false,
    }
}

// Whether a program has no instructions but ones that do nothing.
fn are_nops(program: &[u8]) -> bool
    ensures { Decides result ((count : ℕ) × (program.now ≡ replicate count 0)) }
{
    for byte in program {
        if *byte != 0 {
            return false;
        }
    }
    true
}
