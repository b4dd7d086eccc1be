// A section that was parsed.
ghost use Rattle.std.specs.Prelude.{◌≡◌, ◌↔◌, map, slice_index, Ok, None};
ghost use Rattle.std.specs.Prelude.{IsErr, IfErr, IsTrue, IsFalse};
ghost use Rattle.macho_unwind_info.specs.Listing.{section_of, listing};
ghost use Rattle.macho_unwind_info.specs.Described.{HasDescribedPages, IsInRange, IsOutside};
ghost use Rattle.macho_unwind_info.specs.Described.{FindsListed, FindsEachListed, LieEndToEnd};
ghost use Rattle.macho_unwind_info.specs.Lookup.{range_start, range_end, IsLookup, lookup_of};
ghost use Rattle.macho_unwind_info.specs.Lookup.{first_address};
ghost use Rattle.macho_unwind_info.specs.LanguageTables.{personalities_of, LacksPersonalities};
ghost use Rattle.macho_unwind_info.specs.LanguageTables.{has_language_table, offset_among};
ghost use Rattle.macho_unwind_info.specs.LanguageTables.{table_at, lsda_of};
ghost use Rattle.macho_unwind_info.specs.LanguageTables.{LacksTables, HasDescribedTables};
ghost use Rattle.macho_unwind_info.specs.LanguageTables.{listed_table};
ghost use Rattle.macho_unwind_info.specs.declared.error.Error.TheVariants as errors;
ghost use Rattle.macho_unwind_info.specs.declared.error.ReadError.TheVariants as parts;

use crate::error::{Error, ReadError};
use crate::function::Function;
use crate::function_iter::FunctionIter;
use crate::opcodes::OpcodeBitfield;
use crate::page::Page;
use crate::raw::{CompactUnwindInfoHeader, LsdaEntry, Opcode, PageEntry, U32};
use crate::search::boundary;
use memory_image::Records;
use std::marker::Model;
use std::ops::Range;

/// A section of compact unwinding, `__unwind_info`: a list of pages, each with a list of
/// functions. All addresses are relative to the base of the module.
///
/// It borrows the section's bytes, which may lie at any alignment, and copies none of them. To make
/// one is three bounds checks, so it may be made anew for each sample. Contracts see the bytes, the
/// header, the global opcodes and the list of pages.
#[derive(Drop)]
pub struct UnwindInfo<'a> {
    bytes: &'a [u8],
    header: CompactUnwindInfoHeader,
    global_opcodes: Records<'a, Opcode>,
    pages: Records<'a, PageEntry>,
}

impl<'a> Model for UnwindInfo<'a> {
    ghost use Rattle.macho_unwind_info.specs.Listing.{Section};

    ghost Value = { Section };

    ghost view = { λ i. record {
      bytes = i.bytes.now;
      header = i.header;
      global_opcodes = i.global_opcodes;
      pages = i.pages;
    } };
}

impl<'a> UnwindInfo<'a> {
    /// The section in some bytes.
    ///
    /// Errors: `Header`, `GlobalOpcodes` or `Pages`, the first of these parts, in this order, that
    /// doesn't fit in the bytes. Nothing else is looked at.
    pub fn parse(bytes: &'a [u8]) -> Result<UnwindInfo<'a>, Error>
        ensures { result ≡ section_of bytes.now }
    {
        let header = CompactUnwindInfoHeader::parse(bytes)?;
        let global_opcodes = header.global_opcodes(bytes)?;
        let pages = header.pages(bytes)?;
        Ok(UnwindInfo {
            bytes,
            header,
            global_opcodes,
            pages,
        })
    }

    /// All functions of all pages but the last, which is the sentinel.
    pub fn functions(&self) -> FunctionIter<'a>
        ensures all { result ≡ listing self.now }

        // on described pages the functions lie end to end over the range
        ensures end_to_end { HasDescribedPages self.now → LieEndToEnd (range_start self.now)
            (range_end self.now) result }
    {
        FunctionIter::new(
            self.bytes,
            self.global_opcodes.after(0),
            self.pages.after(0),
        )
    }

    /// The addresses from the first page's to the last page's first address. Without pages it is
    /// `0..0`.
    pub fn address_range(&self) -> Range<u32>
        ensures start { result.start ≡ range_start self.now }
        ensures end { result.end ≡ range_end self.now }
    {
        Range {
            start: first_address_at(&self.pages, 0),
            end: first_address_at(&self.pages, self.pages.len().saturating_sub(1)),
        }
    }

    /// The function of an address, or `Ok(None)` where the pages begin after it or the last page
    /// begins at or before it.
    ///
    /// The pages are searched by their first addresses, and the entries of the page by theirs. In
    /// lists that ascend the last one at or before the address is found.
    ///
    /// Errors: the part of the page that doesn't fit in the section's bytes; `InvalidPageKind` and
    /// `UnexpectedSentinelPage`; `InvalidPageEntryFirstAddress` where the search among the entries
    /// finds none; `AddressOverflow` where the function's start or end passes 2^32 - 1; and
    /// `LocalOpcodes` where the function's opcode is none of those that are there.
    ///
    /// Where the pages are described as a linker writes them, it is the listed function that
    /// covers the address, and `Ok(None)` outside of the section's range.
    pub fn lookup(&self, pc: u32) -> Result<Option<Function>, Error>
        ensures answer { IsLookup self.now pc result }

        // whatever the section's bytes are, a call is answered as any other is
        ensures repeats { result ≡ lookup_of self.now pc }

        // on described pages
        ensures inside { HasDescribedPages self.now → IsInRange self.now pc → FindsListed self.now
            pc result }
        ensures each { HasDescribedPages self.now → FindsEachListed self.now pc result }
        ensures outside { HasDescribedPages self.now → IsOutside self.now pc → result ≡ Ok None }
    {
        self.search(pc)
    }

    /// The look-up, step by step.
    #[tactic(auto, unfolding(crate::specs::Lookup::lookup_of))]
    fn search(&self, pc: u32) -> Result<Option<Function>, Error>
        ensures answer { IsLookup self.now pc result }
        ensures same { result ≡ lookup_of self.now pc }
    {
        let Some(i) = boundary(&self.pages, pc) else {
            return Ok(None);
        };
        let page = self.pages.at(i);
        let Some(next) = self.pages.get(i + 1) else {
            return Ok(None);
        };
        let opened = Page::read(self.bytes, &page)?;
        opened.lookup(&self.global_opcodes, next.first_address(), pc)
    }

    /// The personalities, which the opcodes of functions name by bits 28 and 29
    /// ([`personality_index`](OpcodeBitfield::personality_index)). Each is the address, relative to
    /// the module's base, of the pointer to a personality routine.
    ///
    /// Errors: `Personalities` where they don't fit in the section's bytes.
    pub fn personalities(&self) -> Result<Records<'a, U32>, ReadError>
        ensures same { result ≡ personalities_of self.now }
        ensures lacks { IsErr result ↔ LacksPersonalities self.now }
        ensures error { IfErr result (λ e. e ≡ parts.Personalities) }
    {
        self.header.personalities(self.bytes)
    }

    /// Where a function's language table lies, relative to the module's base, or `Ok(None)` where
    /// its opcode has bit 30 clear or the section lists no language table for its start.
    ///
    /// The pages are searched by their first addresses, and the page's part of the list of language
    /// tables by the addresses of functions. In lists that ascend the table is that of the one entry
    /// whose address is the function's start.
    ///
    /// Errors: `Lsda` where bit 30 is set, and the page's part of the list ends before it begins, has
    /// a length that is no multiple of 8, or doesn't fit in the section's bytes.
    pub fn lsda_of(&self, function: &Function) -> Result<Option<u32>, Error>
        // whatever the section's bytes are
        ensures same { result ≡ lsda_of self.now function.now }
        ensures lacks { IsErr result ↔ LacksTables self.now function.now }
        ensures error { IfErr result (λ e. e ≡ errors.ReadError parts.Lsda) }

        // without bit 30, and on described parts of the list with it
        ensures none { IsFalse (has_language_table function.now.opcode) → result ≡ Ok None }
        ensures finds { HasDescribedTables self.now → IsTrue (has_language_table function.now.opcode)
            → result ≡ Ok (listed_table self.now function.now.start_address) }
    {
        if OpcodeBitfield::new(function.opcode).has_lsda() {
            self.table_at(function.start_address)
        } else {
            Ok(None)
        }
    }

    /// The language table of the function that starts at an address.
    #[tactic(auto, unfolding(crate::specs::LanguageTables::table_at))]
    fn table_at(&self, start: u32) -> Result<Option<u32>, Error>
        ensures { result ≡ table_at self.now start }
    {
        let Some(i) = boundary(&self.pages, start) else {
            return Ok(None);
        };
        let page = self.pages.at(i);
        let Some(next) = self.pages.get(i + 1) else {
            return Ok(None);
        };
        let entries = page.lsda_entries(self.bytes, &next)?;
        Ok(offset_among(&entries, start))
    }
}

/// What the entry to which the search for a function's start comes gives, if it is the function's.
fn offset_among(entries: &Records<'_, LsdaEntry>, start: u32) -> Option<u32>
    ensures { result ≡ offset_among entries.now start }
{
    let entry = entries.at(boundary(entries, start)?);
    if entry.address() == start {
        Some(entry.lsda_offset())
    } else {
        None
    }
}

/// The first address of the page at an index, or 0 where there is none.
fn first_address_at(pages: &Records<'_, PageEntry>, i: usize) -> u32
    ensures { result ≡ slice_index (map first_address pages.now) i }
{
    match pages.get(i) {
        Some(page) => page.first_address(),
        None => 0,
    }
}
