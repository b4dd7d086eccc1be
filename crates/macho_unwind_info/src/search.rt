// The search in a sorted list of records, and the keys by which lists are sorted.
ghost use Rattle.std.specs.Prelude.{◌≡◌, ◌+◌, ◌<◌, ◌^◌, map, IfSome};
ghost use Rattle.memory_image.specs.Halving.{boundary_of};
ghost use Rattle.macho_unwind_info.specs.Lookup.{Finds, first_address, start_address};
ghost use Rattle.macho_unwind_info.specs.Lookup.{start_distance};
ghost use Rattle.macho_unwind_info.specs.LanguageTables.{function_address};

use crate::raw::{CompressedFunctionEntry, LsdaEntry, PageEntry, RegularFunctionEntry, U32};
use memory_image::{Keyed, Record, Records};

/// A page, by its first address.
impl Keyed for PageEntry {
    ghost key = { first_address };

    fn read_key(bytes: &[u8]) -> u32 {
        PageEntry::read(bytes).first_address()
    }
}

/// An entry of a regular page, by its address.
impl Keyed for RegularFunctionEntry {
    ghost key = { start_address };

    fn read_key(bytes: &[u8]) -> u32 {
        RegularFunctionEntry::read(bytes).address()
    }
}

/// An entry of a compressed page, by its distance from the page's first address.
impl Keyed for U32 {
    ghost key = { start_distance };

    fn read_key(bytes: &[u8]) -> u32 {
        CompressedFunctionEntry::new(U32::read(bytes).into()).relative_address()
    }
}

/// An entry of the list of language tables, by its function's address.
impl Keyed for LsdaEntry {
    ghost key = { function_address };

    fn read_key(bytes: &[u8]) -> u32 {
        LsdaEntry::read(bytes).address()
    }
}

/// The index of a record whose key is at or before `p` and the next one's, if there is a next one,
/// after it. In a sorted list it is the last one at or before `p`. None only where the list is
/// empty or its first key is after `p`.
pub fn boundary<T: Keyed>(records: &Records<'_, T>, p: u32) -> Option<usize>
    ensures found { Finds (map T.key records.now) p result }
    ensures same { result ≡ boundary_of (map T.key records.now) p }
    ensures next_fits { IfSome result (λ i. i + 1 < 2 ^ 64) }
{
    records.boundary(p)
}
