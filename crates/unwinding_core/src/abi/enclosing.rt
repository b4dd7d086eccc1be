//! The function that an address lies in.

ghost use Rattle.std.specs.Prelude.{◌≡◌, ◌≢◌, ◌+◌, ◌-◌, ℕ, Option};
ghost use Rattle.std.specs.Option.{option_map_or};
ghost use Rattle.fde_finders.specs.Finding.{FoundFde};

use fde_finders::FDEFinder;
use memory_image::{Ledger, MemoryImage, Steps};

/// The address of the first byte of the function that a call returns to at `pc`: that of the
/// description found for the byte before. 0 for `pc` 0, where nothing is looked for, and where none
/// is found.
///
/// Source: the GNU unwinder, `_Unwind_FindEnclosingFunction`.
pub fn _Unwind_FindEnclosingFunction<F: FDEFinder, L: Ledger>(
    image: &MemoryImage<'_>,
    finder: &F,
    pc: u64,
    steps: &mut Steps<L>,
) -> u64
    ensures zero { pc ≡ 0 → (result ≡ 0) × (steps.new.number ≡ steps.old.number) }
    ensures start { pc ≢ 0 → (answer : Option FoundFde) × (ticks : ℕ) ×
        (steps.new.number ≡ steps.old.number + ticks) ×
        F.finds finder.now image.now (pc - 1) answer ticks ×
        (result ≡ option_map_or (λ f. f.fde.start) answer 0) }
{
    if pc == 0 {
        return 0;
    }
    match finder.find_fde(image, pc - 1, steps) {
        None => 0,
        Some(found) => found.fde.initial_address(),
    }
}
