//! Laws of the definitions that the contracts of this crate cite. Nothing of it runs.
ghost use Rattle.std.specs.Prelude.{◌≡◌, ℕ, Ok, Some, [], ◌∷◌, IsTrue};
ghost use Rattle.macho_unwind_info.specs.Listing.{Section, section_of, listing};
ghost use Rattle.macho_unwind_info.specs.Lookup.{IsLookup, lookup_of};
ghost use Rattle.macho_unwind_info.specs.Described.{HasDescribedPages, FindsEachListed};
ghost use Rattle.macho_unwind_info.specs.Sample.{described_bytes, described_functions};
ghost use Rattle.macho_unwind_info.specs.Sample.{damaged_bytes, damaged_places};
ghost use Rattle.macho_unwind_info.specs.Sample.{tabled_bytes, tabled_function};
ghost use Rattle.macho_unwind_info.specs.Unaligned.{u32_of_number};
ghost use Rattle.macho_unwind_info.specs.LanguageTables.{personalities_of, has_language_table};
ghost use Rattle.macho_unwind_info.specs.LanguageTables.{HasDescribedTables, listed_table};

/// There is a section whose pages are described: a compressed page with two functions, a regular
/// one with one function, and the sentinel.
pub fn described_section()
    ensures { (info : Section) × (section_of described_bytes ≡ Ok info) × HasDescribedPages info ×
        (listing info ≡ described_functions) }
{}

/// Where the second entry of its compressed page names an opcode that isn't there, the listing has
/// the error in that place, and the functions before and after it.
pub fn damaged_section()
    ensures { (info : Section) × (section_of damaged_bytes ≡ Ok info) ×
        (listing info ≡ damaged_places) }
{}

/// What the searches by halving answer is a look-up's answer.
pub fn lookup_of_is_a_lookup()
    ensures { (info : Section) (pc : ℕ) → IsLookup info pc (lookup_of info pc) }
{}

/// Where pages are described, the look-up of an address answers the listed function that covers it.
pub fn lookup_finds_the_listed()
    ensures { (info : Section) (pc : ℕ) → HasDescribedPages info → FindsEachListed info pc
        (lookup_of info pc) }
{}

/// There is a section whose pages are described, whose language tables are listed as a linker lists
/// them, and whose one function has one; its personality is the first of the section's.
pub fn section_with_language_tables()
    ensures { (info : Section) × (section_of tabled_bytes ≡ Ok info) × HasDescribedPages info ×
        HasDescribedTables info × (listing info ≡ (Ok tabled_function ∷ [])) ×
        IsTrue (has_language_table tabled_function.opcode) ×
        (listed_table info tabled_function.start_address ≡ Some 0x1800) ×
        (personalities_of info ≡ Ok (u32_of_number 0x3000 ∷ [])) }
{}
