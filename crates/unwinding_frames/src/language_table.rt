//! Language tables: what the language of a function asks of a frame that is stopped in it.
//!
//! Itanium C++ ABI, exception handling tables. A table has a head, the call sites of its function
//! in ascending order, and the action table.

ghost use Rattle.std.specs.Prelude.{◌≡◌, ℕ, length, Some, Ok, IfOk};
ghost use Rattle.std.specs.Option.{option_map};
ghost use Rattle.unwind_definitions.specs.LanguageTable.{input_at};
ghost use Rattle.unwind_definitions.specs.LanguageSearch.{LanguageAsks, address, address_of_call};
ghost use Rattle.unwind_definitions.specs.LanguageSearch.{call_site, decision, head};
ghost use Rattle.unwind_definitions.specs.LanguageSearch.{LanguagePlace, language_action};
ghost use Rattle.unwind_definitions.specs.LanguageSearch.{language_place, pad_action, pad_base};
ghost use Rattle.unwind_definitions.specs.LanguageSearch.{place_action};
ghost use Rattle.unwind_definitions.specs.LanguageSearch.{search, search_from, site_action};
ghost use Rattle.unwind_definitions.specs.LanguageSearch.{sum_below};
ghost use Rattle.encoded_pointers.specs.PointerViews.{bases_of};
ghost use Rattle.encoded_pointers.specs.Readers.{GivesOr as Reads};
ghost use Rattle.encoded_pointers.specs.CursorViews.{at};
ghost use Rattle.fde_finders.specs.FoundViews.{found_fde_of};
ghost use Rattle.unwinding_frames.specs.Calling.{value_given};
ghost use Rattle.unwinding_frames.specs.ContextSeen.{language_place_of};
ghost use Rattle.unwinding_frames.specs.LanguageViews.{action_of, answer_seen, head_of, site_of};
ghost use Rattle.unwinding_frames.specs.LanguageViews.{passes_types, GivesOr};

use crate::frame::{Frame, StepError, address_asked, lsda_of, return_address, target};
use crate::place::Place;
use eh_frame::{Bases, Error};
use encoded_pointers::constants::DW_EH_PE_ULEB128;
use encoded_pointers::{Cursor, DwEhPe, parse_encoded_pointer, parse_pointer_encoding};
use fde_finders::FDESearchResult;
use memory_image::MemoryImage;
use unwind_arch::Machine;

/// What the language of a function asks of a frame that is stopped in a call.
///
/// Source: Itanium C++ ABI, exception handling, levels I and II.
#[derive(Clone, Copy, Debug, PartialEq, Eq)]
pub enum EhAction {
    /// Nothing: the unwinding goes on to the caller.
    None,
    /// To enter the landing pad at this address for a cleanup, and then to go on.
    Cleanup(u64),
    /// To enter the landing pad at this address for a handler.
    Catch(u64),
    /// To enter the landing pad at this address for an exception specification.
    Filter(u64),
    /// To end the program, for no exception may leave the call.
    Terminate,
}

/// A call site: which calls it holds, and what is asked of a frame that is stopped in one.
#[derive(Clone, Copy)]
pub(crate) struct CallSite {
    // how far from the function's start it begins
    pub(crate) from: u64,
    pub(crate) len: u64,
    // how far from the landing pads' base its own is, 0 where it has none
    pub(crate) pad: u64,
    // its place in the action table, counted from 1; 0 for a cleanup
    pub(crate) index: u64,
}

/// A language table whose head is read.
#[derive(Clone, Copy)]
struct LanguageTable<'a> {
    // what landing pads count from
    pad_base: u64,
    site_encoding: DwEhPe,
    sites: Cursor<'a>,
    actions: Cursor<'a>,
}

// a number by itself
const ULEB128: DwEhPe = DwEhPe(DW_EH_PE_ULEB128);

const OVERFLOW: StepError = StepError::Table(Error::AddressOverflow);

/// What the function of a frame asks of it, by its language table: `None` where it has no table.
///
/// The address asked is the return address, less one unless `signal`: after a call that is a byte
/// of the call. Call sites are taken in order. The first that holds the address decides, or the
/// first that begins past it, and then the program ends; so it does where none decides. A site
/// without a landing pad asks nothing.
/// Source: Itanium C++ ABI, exception handling tables.
///
/// # Errors
///
/// The first that holds in the order of reading. What stands after the deciding site isn't read.
///
/// - `Table` with the fault of an encoding, a number, a pointer or the bytes that call sites take;
/// - `Table(AddressOverflow)` where an address of a site or of a landing pad passes 2^64 - 1;
/// - `Unmapped` with the address of an indirect pointer's cell that isn't wholly mapped.
pub fn find_eh_action<M: Machine>(
    image: &MemoryImage<'_>,
    frame: &Frame<'_, M>,
    context: &M::Context,
    signal: bool,
) -> Result<EhAction, StepError>
    ensures action { (ra : ℕ) → M.Context.columns context.now M.RA.0 ≡ Some ra →
        answer_seen action_of result ≡ language_action image.now frame.now.found.bases frame.now.found.fde
        (address_of_call ra signal) }
    ensures placed { (ra : ℕ) → M.Context.columns context.now M.RA.0 ≡ Some ra →
        (p : LanguagePlace) → language_place image.now frame.now.found.bases frame.now.found.fde ≡ Ok p →
        answer_seen action_of result ≡ place_action image.now p (address_of_call ra signal) }
    ensures first { (ra : ℕ) → M.Context.columns context.now M.RA.0 ≡ Some ra →
        IfOk result (λ action. LanguageAsks image.now frame.now.found.bases frame.now.found.fde
        (address_of_call ra signal) (action_of action)) }
{
    let address = address_asked(return_address::<M>(context), signal);
    eh_action_of(frame.found(), image, address)
}

/// What the function asks of a frame of it, by its language table, at an address of a call:
/// [`find_eh_action`] where the frame isn't made.
///
/// # Errors
///
/// Those of [`find_eh_action`].
#[inline(always)]
pub fn eh_action_of(
    found: &FDESearchResult<'_>,
    image: &MemoryImage<'_>,
    address: u64,
) -> Result<EhAction, StepError>
    ensures { answer_seen action_of result ≡ language_action image.now (found_fde_of found.now).bases
        (found_fde_of found.now).fde address }
{
    let place = Place {
        start: found.fde.initial_address(),
        lsda: lsda_of(found, image)?,
        bases: found.bases,
    };
    find_eh_action_at(image, &place, address)
}

/// What a function asks of a frame of it that is stopped in a call at an address, by the language
/// table at a place: [`find_eh_action`] where no call frame information says where the table is.
/// `None` where the place has no table.
///
/// # Errors
///
/// Those of [`find_eh_action`].
#[inline(always)]
pub fn find_eh_action_at(
    image: &MemoryImage<'_>,
    place: &Place,
    address: u64,
) -> Result<EhAction, StepError>
    ensures { answer_seen action_of result ≡ place_action image.now (language_place_of place.now)
        address }
{
    if place.lsda == 0 {
        return Ok(EhAction::None);
    }
    let mut bases = place.bases;
    bases.func = Some(place.start);
    action_at(image, &bases, place.start, place.lsda, address)
}

/// What the language table at `table` of the function at `start` asks at an address.
#[tactic(auto, unfolding(unwind_definitions::specs::LanguageSearch::search))]
fn action_at(
    image: &MemoryImage<'_>,
    bases: &Bases,
    start: u64,
    table: u64,
    address: u64,
) -> Result<EhAction, StepError>
    ensures { answer_seen action_of result ≡ search image.now (bases_of bases.now) start address
        (input_at image.now table) }
{
    let table = LanguageTable::read(image, bases, start, input_at(image, table))?;
    table.search(image, bases, start, address)
}

/// The bytes from an address to the end of its region.
pub(crate) fn input_at<'a>(image: &MemoryImage<'a>, address: u64) -> Cursor<'a>
    ensures { at result ≡ input_at image.now address }
{
    Cursor::new(image.bytes_from(address), address)
}

impl<'a> LanguageTable<'a> {
    /// The table of the function at `start`, whose head is read.
    fn read(
        image: &MemoryImage<'_>,
        bases: &Bases,
        start: u64,
        input: Cursor<'a>,
    ) -> Result<LanguageTable<'a>, StepError>
        ensures { answer_seen head_of result ≡ head image.now (bases_of bases.now) start
            (at input.entry) }
    {
        let mut rest = input;
        let pad_base = read_pad_base(image, bases, start, &mut rest)?;
        skip_types(&mut rest)?;
        let site_encoding = parse_pointer_encoding(&mut rest)?;
        let size = rest.read_uleb128()?;
        let sites = rest.split(size)?;
        Ok(LanguageTable {
            pad_base,
            site_encoding,
            sites,
            actions: rest,
        })
    }

    /// What the first site that decides asks at an address.
    fn search(
        &self,
        image: &MemoryImage<'_>,
        bases: &Bases,
        start: u64,
        address: u64,
    ) -> Result<EhAction, StepError>
        ensures { answer_seen action_of result ≡ search_from (length (at self.now.sites).bytes) image.now
            (bases_of bases.now) start address (head_of self.now) (at self.now.sites) }
    {
        let mut sites = self.sites;
        while !sites.is_empty() {
            let site = read_call_site(image, bases, self.site_encoding, &mut sites)?;
            if let Some(action) = self.decision(start, address, site)? {
                return Ok(action);
            }
        }
        Ok(EhAction::Terminate)
    }

    /// What a site decides at an address, `None` where it ends before it.
    fn decision(
        &self,
        start: u64,
        address: u64,
        site: CallSite,
    ) -> Result<Option<EhAction>, StepError>
        ensures { answer_seen (option_map action_of) result ≡ decision start address (head_of self.now)
            (site_of site) }
    {
        let from = sum(start, site.from)?;
        if address < from {
            return Ok(Some(EhAction::Terminate));
        }
        let to = sum(from, site.len)?;
        if address < to {
            return Ok(Some(self.action(site)?));
        }
        Ok(None)
    }

    /// What a site asks of a call in it.
    fn action(&self, site: CallSite) -> Result<EhAction, StepError>
        ensures { answer_seen action_of result ≡ site_action (head_of self.now) (site_of site) }
    {
        if site.pad == 0 {
            return Ok(EhAction::None);
        }
        let pad = sum(self.pad_base, site.pad)?;
        pad_action(self.actions, pad, site.index)
    }
}

/// What a landing pad is entered for: a cleanup, or what its number in the action table says.
fn pad_action(actions: Cursor<'_>, pad: u64, index: u64) -> Result<EhAction, StepError>
    ensures { answer_seen action_of result ≡ pad_action (at actions.entry) pad index }
{
    if index == 0 {
        return Ok(EhAction::Cleanup(pad));
    }
    let mut record = actions;
    record.skip(index - 1)?;
    let number = record.read_sleb128()?;
    Ok(if number == 0 {
        EhAction::Cleanup(pad)
    } else if number > 0 {
        EhAction::Catch(pad)
    } else {
        EhAction::Filter(pad)
    })
}

/// A sum of addresses, which must be one.
pub(crate) fn sum(address: u64, distance: u64) -> Result<u64, StepError>
    ensures { value_given result ≡ sum_below address distance }
{
    address.checked_add(distance).ok_or(OVERFLOW)
}

/// An address by an encoding. After a fault the cursor is unspecified.
#[inline(always)]
pub(crate) fn read_address(
    image: &MemoryImage<'_>,
    bases: &Bases,
    encoding: DwEhPe,
    input: &mut Cursor<'_>,
) -> Result<u64, StepError>
    ensures { GivesOr (λ x. x) result (address image.now encoding.0 (bases_of bases.now)
        (at input.old)) (at input.new) }
{
    // so compilers spell the numbers of call sites
    if encoding == ULEB128 {
        return Ok(input.read_uleb128()?);
    }
    read_pointed_address(image, bases, encoding, input)
}

/// The same, whatever the encoding.
#[inline(never)]
fn read_pointed_address(
    image: &MemoryImage<'_>,
    bases: &Bases,
    encoding: DwEhPe,
    input: &mut Cursor<'_>,
) -> Result<u64, StepError>
    ensures { GivesOr (λ x. x) result (address image.now encoding.0 (bases_of bases.now)
        (at input.old)) (at input.new) }
{
    let pointer = parse_encoded_pointer(encoding, bases, input)?;
    target(image, pointer)
}

/// What landing pads count from: the function's start, unless the table says another address.
/// After a fault the cursor is unspecified.
pub(crate) fn read_pad_base(
    image: &MemoryImage<'_>,
    bases: &Bases,
    start: u64,
    input: &mut Cursor<'_>,
) -> Result<u64, StepError>
    ensures { GivesOr (λ x. x) result (pad_base image.now (bases_of bases.now) start (at input.old))
        (at input.new) }
{
    let encoding = parse_pointer_encoding(input)?;
    if encoding.is_absent() {
        return Ok(start);
    }
    read_address(image, bases, encoding, input)
}

/// Passes over the types' encoding and, unless there are none, the distance to their table. After a
/// fault the cursor is unspecified.
fn skip_types(input: &mut Cursor<'_>) -> Result<(), Error>
    ensures { Reads (λ x. x) result (passes_types (at input.old)) (at input.new) }
{
    let encoding = parse_pointer_encoding(input)?;
    if !encoding.is_absent() {
        input.read_uleb128()?;
    }
    Ok(())
}

/// A call site. After a fault the cursor is unspecified.
pub(crate) fn read_call_site(
    image: &MemoryImage<'_>,
    bases: &Bases,
    encoding: DwEhPe,
    input: &mut Cursor<'_>,
) -> Result<CallSite, StepError>
    ensures { GivesOr site_of result
        (call_site image.now (bases_of bases.now) encoding.0 (at input.old)) (at input.new) }
{
    let from = read_address(image, bases, encoding, input)?;
    let len = read_address(image, bases, encoding, input)?;
    let pad = read_address(image, bases, encoding, input)?;
    let index = input.read_uleb128()?;
    Ok(CallSite {
        from,
        len,
        pad,
        index,
    })
}
