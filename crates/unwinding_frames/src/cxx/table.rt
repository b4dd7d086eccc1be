//! Language tables of C++ functions: the head, and the call site that decides.

ghost use Rattle.std.specs.Prelude.{◌≡◌, length};
ghost use Rattle.std.specs.Option.{option_map};
ghost use Rattle.encoded_pointers.specs.PointerViews.{bases_of};
ghost use Rattle.encoded_pointers.specs.CursorViews.{at};
ghost use Rattle.unwinding_frames.specs.LanguageViews.{answer_seen, site_of};
ghost use Rattle.unwinding_frames.specs.CxxTables.{cxx_table, site_decision, site_from};
ghost use Rattle.unwinding_frames.specs.CxxViews.{table_of};

use crate::cxx::types::Types;
use crate::frame::StepError;
use crate::language_table::{CallSite, read_call_site, read_pad_base, sum};
use eh_frame::Bases;
use encoded_pointers::{Cursor, DwEhPe, parse_pointer_encoding};
use memory_image::MemoryImage;

/// A language table of a C++ function, whose head is read.
#[derive(Clone, Copy)]
pub struct CxxTable<'a> {
    // what landing pads count from
    pub(crate) pad_base: u64,
    site_encoding: DwEhPe,
    sites: Cursor<'a>,
    pub(crate) actions: Cursor<'a>,
    pub(crate) types: Option<Types>,
}

impl<'a> CxxTable<'a> {
    /// The table of the function at `start`, whose head is read.
    pub fn read(
        image: &MemoryImage<'_>,
        bases: &Bases,
        start: u64,
        input: Cursor<'a>,
    ) -> Result<CxxTable<'a>, StepError>
        ensures { answer_seen table_of result ≡ cxx_table image.now (bases_of bases.now) start
            (at input.entry) }
    {
        let mut rest = input;
        let pad_base = read_pad_base(image, bases, start, &mut rest)?;
        let types = Types::read(&mut rest)?;
        let site_encoding = parse_pointer_encoding(&mut rest)?;
        let size = rest.read_uleb128()?;
        let sites = rest.split(size)?;
        Ok(CxxTable {
            pad_base,
            site_encoding,
            sites,
            actions: rest,
            types,
        })
    }

    /// The first call site that decides at an address: the one that holds it. None where the program
    /// ends: the first that doesn't end before the address begins past it, or each ends before it.
    pub fn deciding_site(
        &self,
        image: &MemoryImage<'_>,
        bases: &Bases,
        start: u64,
        address: u64,
    ) -> Result<Option<CallSite>, StepError>
        ensures { answer_seen (option_map site_of) result ≡ site_from (length (at self.now.sites).bytes)
            image.now (bases_of bases.now) start address self.now.site_encoding.0 (at self.now.sites) }
    {
        let mut sites = self.sites;
        while !sites.is_empty() {
            let site = read_call_site(image, bases, self.site_encoding, &mut sites)?;
            if let Some(decided) = site_decision(start, address, site)? {
                return Ok(decided);
            }
        }
        Ok(None)
    }
}

/// What a call site is to an address: it ends before it (`None`), begins past it (`Some(None)`), or
/// decides.
fn site_decision(
    start: u64,
    address: u64,
    site: CallSite,
) -> Result<Option<Option<CallSite>>, StepError>
    ensures { answer_seen (option_map (option_map site_of)) result ≡ site_decision start address
        (site_of site) }
{
    let from = sum(start, site.from)?;
    if address < from {
        return Ok(Some(None));
    }
    let to = sum(from, site.len)?;
    if address < to {
        return Ok(Some(Some(site)));
    }
    Ok(None)
}
