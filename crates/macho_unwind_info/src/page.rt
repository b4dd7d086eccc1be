// A page that was opened: its entries, and what they say.
ghost use Rattle.std.specs.Prelude.{◌≡◌, ◌+◌, ◌-◌, ◌<◌, ◌≤◌, ◌^◌, IfSome, IfOk, slice_get};
ghost use Rattle.std.specs.Prelude.{map, drop};
ghost use Rattle.memory_image.specs.Halving.{boundary_of};
ghost use Rattle.macho_unwind_info.specs.Unaligned.{u32_number};
ghost use Rattle.macho_unwind_info.specs.Listing.{page_of, regular_of, compressed_of, opcode_at};
ghost use Rattle.macho_unwind_info.specs.Listing.{opcode_named, address_after};
ghost use Rattle.macho_unwind_info.specs.Listing.{entries_of};
ghost use Rattle.macho_unwind_info.specs.Listing.{function_of, functions_of, whole_page};
ghost use Rattle.macho_unwind_info.specs.Lookup.{Finds, base_of, keys_of, IsPageLookup};
ghost use Rattle.macho_unwind_info.specs.Lookup.{page_lookup_of};
ghost use Rattle.macho_unwind_info.specs.Iteration.{after_first, left_in};

use crate::error::{Error, ReadError};
use crate::function::Function;
use crate::raw::consts::{PAGE_KIND_COMPRESSED, PAGE_KIND_REGULAR, PAGE_KIND_SENTINEL};
use crate::raw::{
    CompressedFunctionEntry, CompressedPage, Opcode, PageEntry, RegularFunctionEntry, RegularPage,
    U32,
};
use crate::search::boundary;
use memory_image::Records;

/// A page that was opened.
#[derive(Drop)]
pub enum Page<'a> {
    /// Each entry holds an address and an opcode.
    Regular {
        functions: Records<'a, RegularFunctionEntry>,
    },
    /// Each entry holds a distance from the first address and the index of an opcode.
    Compressed {
        first_address: u32,
        functions: Records<'a, U32>,
        local_opcodes: Result<Records<'a, Opcode>, ReadError>,
    },
}

/// An entry of a page: where its function begins and what its opcode is, or the error that stands
/// in place of either.
#[derive(Clone, Copy)]
pub struct Entry {
    pub address: Result<u32, Error>,
    pub opcode: Result<u32, Error>,
}

/// The opcode at a place of a list.
fn opcode_at(opcodes: &Records<'_, Opcode>, i: usize) -> Result<u32, Error>
    ensures { result ≡ opcode_at opcodes.now i }
{
    match opcodes.get(i) {
        Some(opcode) => Ok(opcode.opcode()),
        None => Err(Error::ReadError(ReadError::LocalOpcodes)),
    }
}

/// The opcode that an index names: a global one below their number, else one of the page's own.
fn opcode_named(
    global: &Records<'_, Opcode>,
    local: &Result<Records<'_, Opcode>, ReadError>,
    i: usize,
) -> Result<u32, Error>
    ensures { result ≡ opcode_named global.now local.now i }
{
    if i < global.len() {
        return opcode_at(global, i);
    }
    match local {
        Ok(opcodes) => opcode_at(opcodes, i - global.len()),
        Err(error) => Err(Error::ReadError(*error)),
    }
}

/// The address so far after another.
fn address_after(first: u32, distance: u32) -> Result<u32, Error>
    ensures { result ≡ address_after first distance }
{
    first.checked_add(distance).ok_or(Error::AddressOverflow)
}

/// The function of an entry with another after it, or at the end of a page with the next page
/// after it.
fn function_of(next_address: u32, entry: &Entry, after: Option<Entry>) -> Result<Function, Error>
    ensures { result ≡ function_of next_address entry.now after }
{
    let start_address = entry.address?;
    let end_address = match after {
        Some(after) => after.address?,
        None => next_address,
    };
    let opcode = entry.opcode?;
    Ok(Function {
        start_address,
        end_address,
        opcode,
    })
}

impl<'a> Page<'a> {
    /// The page that an entry of the list of pages names.
    pub fn read(bytes: &'a [u8], entry: &PageEntry) -> Result<Page<'a>, Error>
        ensures value { result ≡ page_of bytes.now entry.now }
        ensures base { IfOk result (λ page. base_of page ≤ u32_number entry.now.first_address) }
    {
        match entry.page_kind(bytes)? {
            PAGE_KIND_REGULAR => Page::read_regular(bytes, entry),
            PAGE_KIND_COMPRESSED => Page::read_compressed(bytes, entry),
            PAGE_KIND_SENTINEL => Err(Error::UnexpectedSentinelPage),
            _ => Err(Error::InvalidPageKind),
        }
    }

    fn read_regular(bytes: &'a [u8], entry: &PageEntry) -> Result<Page<'a>, Error>
        ensures value { result ≡ regular_of bytes.now entry.now }
        ensures base { IfOk result (λ page. base_of page ≡ 0) }
    {
        let offset = entry.page_offset();
        let header = RegularPage::parse(bytes, u64::from(offset))?;
        let functions = header.functions(bytes, offset)?;
        Ok(Page::Regular { functions })
    }

    fn read_compressed(bytes: &'a [u8], entry: &PageEntry) -> Result<Page<'a>, Error>
        ensures value { result ≡ compressed_of bytes.now entry.now }
        ensures base { IfOk result (λ page. base_of page ≡ u32_number entry.now.first_address) }
    {
        let offset = entry.page_offset();
        let header = CompressedPage::parse(bytes, u64::from(offset))?;
        let functions = header.functions(bytes, offset)?;
        let local_opcodes = header.local_opcodes(bytes, offset);
        Ok(Page::Compressed {
            first_address: entry.first_address(),
            functions,
            local_opcodes,
        })
    }

    /// The entry at an index, if the page has so many.
    fn entry(&self, global: &Records<'_, Opcode>, i: usize) -> Option<Entry>
        ensures { result ≡ slice_get (entries_of global.now self.now) i }
    {
        match self {
            Page::Regular { functions } => {
                let entry = functions.get(i)?;
                Some(Entry {
                    address: Ok(entry.address()),
                    opcode: Ok(entry.opcode()),
                })
            }
            Page::Compressed {
                first_address,
                functions,
                local_opcodes,
            } => {
                let entry = CompressedFunctionEntry::new(functions.get(i)?.into());
                Some(Entry {
                    address: address_after(*first_address, entry.relative_address()),
                    opcode: opcode_named(global, local_opcodes, usize::from(entry.opcode_index())),
                })
            }
        }
    }

    /// The function of the entry at an index, if the page has so many. The last one ends where the
    /// next page begins.
    pub fn function(
        &self,
        global: &Records<'_, Opcode>,
        next_address: u32,
        i: usize,
    ) -> Option<Result<Function, Error>>
        requires { i + 1 < 2 ^ 64 }
        ensures { result ≡ slice_get (functions_of next_address (entries_of global.now self.now))
            i }
    {
        let entry = self.entry(global, i)?;
        let after = self.entry(global, i + 1);
        Some(function_of(next_address, &entry, after))
    }

    /// The index of the entry at an address, or of the last one before it.
    fn find(&self, pc: u32) -> Option<usize>
        requires { base_of self.now ≤ pc }
        ensures found { Finds (keys_of self.now) (pc - base_of self.now) result }
        ensures same { result ≡ boundary_of (keys_of self.now) (pc - base_of self.now) }
        ensures next_fits { IfSome result (λ i. i + 1 < 2 ^ 64) }
    {
        match self {
            Page::Regular { functions } => boundary(functions, pc),
            Page::Compressed {
                first_address,
                functions,
                ..
            } => boundary(functions, pc - *first_address),
        }
    }

    /// The function of an address that isn't before the page's first address.
    pub fn lookup(
        &self,
        global: &Records<'_, Opcode>,
        next_address: u32,
        pc: u32,
    ) -> Result<Option<Function>, Error>
        requires { base_of self.now ≤ pc }
        ensures lookup { IsPageLookup global.now self.now next_address pc result }
        ensures same { result ≡ page_lookup_of global.now next_address pc self.now }
    {
        let Some(i) = self.find(pc) else {
            return Err(Error::InvalidPageEntryFirstAddress);
        };
        match self.function(global, next_address, i) {
            Some(function) => function.map(Some),
            None => Ok(None),
        }
    }

    /// The page itself, if its own opcodes fit in the section's bytes.
    pub fn whole(self) -> Result<Page<'a>, Error>
        ensures { result ≡ whole_page self.entry }
    {
        match self {
            Page::Compressed {
                local_opcodes: Err(error),
                ..
            } => Err(Error::ReadError(error)),
            page => Ok(page),
        }
    }

    /// Passes the first entry.
    pub fn skip(&mut self)
        ensures { self.new ≡ after_first self.old }
    {
        match self {
            Page::Regular { functions } => *functions = functions.after(1),
            Page::Compressed { functions, .. } => *functions = functions.after(1),
        }
    }
}

/// What is left of a page, with the first address of the page after it.
#[derive(Drop)]
pub struct OpenPage<'a> {
    pub page: Page<'a>,
    pub next_address: u32,
}

impl<'a> OpenPage<'a> {
    /// The first function that is left, which is then passed.
    pub fn take_first(&mut self, global: &Records<'_, Opcode>) -> Option<Result<Function, Error>>
        ensures first { result ≡ slice_get (left_in global.now self.old) 0 }
        ensures rest { left_in global.now self.new ≡ drop 1 (left_in global.now self.old) }
    {
        let first = self.page.function(global, self.next_address, 0);
        self.page.skip();
        first
    }
}
