//! Language tables beside the call sites of a claim. Itanium C++ ABI, exception handling tables.

ghost use Rattle.std.specs.Prelude.{◌≡◌, ◌+◌, Ok, map};
ghost use Rattle.std.specs.Bool.{Decides};
ghost use Rattle.unwind_definitions.specs.LanguageTable.{AreSites, IsLanguageTable};
ghost use Rattle.unwind_definitions.specs.LanguageTable.{LeadsToLanguage, action_of as asked};
ghost use Rattle.unwind_definitions.specs.LanguageTable.{site_at, site_bytes, types};
ghost use Rattle.encoded_pointers.specs.CursorViews.{at};
ghost use Rattle.encoded_pointers.specs.Readers.{Answers, GivesOr};
ghost use Rattle.eh_frame.specs.EntryViews.{fde_of};
ghost use Rattle.unwinding_frames.specs.LanguageViews.{action_of};
ghost use Rattle.table_check.specs.Numbers.{IsNextSite, IsSpelled, asks_at, kind_at, kind_by};
ghost use Rattle.table_check.specs.Numbers.{site_numbers, sites_read};
ghost use Rattle.table_check.specs.ClaimViews.{function_of, site_of};

use crate::claims::{Claim, ClaimedSite};
use eh_frame::{Cursor, Error, Fde, Pointer, parse_pointer_encoding};
use memory_image::MemoryImage;
use unwinding_frames::EhAction;

// Numbers of variable length, and nothing.
const ULEB128: u8 = 0x01;

const OMIT: u8 = 0xff;

// The first word that stands for a number below 0.
const SIGN: u64 = 1 << 63;

/// The numbers of a call site.
#[derive(Clone, Copy)]
pub(crate) struct SiteNumbers {
    // how far from the function's start it begins
    from: u64,
    len: u64,
    // how far from the function's start its landing pad is, 0 where it has none
    pad: u64,
    // its place in the action table, counted from 1; 0 for a cleanup
    index: u64,
}

/// What a landing pad is entered for.
#[derive(Clone, Copy)]
pub(crate) enum PadKind {
    Cleanup,
    Catch,
    Filter,
}

/// Whether the language table that a description names has the call sites of a claim; or it names
/// none, where the claim has none.
pub(crate) fn has_sites(image: &MemoryImage<'_>, claim: &Claim, fde: &Fde<'_>) -> bool
    ensures { Decides result
        (LeadsToLanguage image.now (function_of claim.now) (fde_of fde.now).language) }
{
    match fde.lsda() {
        None => !claim.has_table,
        Some(Pointer::Direct(address)) => {
            claim.has_table && is_language_table(image, address, claim.start, &claim.sites)
        }
        Some(Pointer::Indirect(_)) => false,
    }
}

// Whether a language table with these call sites stands at an address.
fn is_language_table(
    image: &MemoryImage<'_>,
    address: u64,
    start: u64,
    sites: &[ClaimedSite],
) -> bool
    ensures { Decides result (IsLanguageTable image.now address start (map site_of sites.now)) }
{
    if address == 0 {
        return false;
    }
    let mut input = Cursor::new(image.bytes_from(address), address);
    match read_sites(&mut input) {
        Ok(listed) => are_sites(start, input, listed, sites),
        Err(_) => false,
    }
}

// The call sites, after what stands before them; then the action table is left. After a fault the
// cursor is unspecified.
fn read_sites<'a>(input: &mut Cursor<'a>) -> Result<Cursor<'a>, Error>
    ensures { GivesOr at result (sites_read (at input.old)) (at input.new) }
{
    let size = read_size(input)?;
    input.split(size)
}

// How many bytes the call sites take.
fn read_size(input: &mut Cursor<'_>) -> Result<u64, Error>
    ensures { GivesOr (λ size. size) result (site_bytes (at input.old)) (at input.new) }
{
    if input.read_u8()? != OMIT {
        return Err(Error::UnsupportedPointerEncoding);
    }
    pass_types(input)?;
    if input.read_u8()? != ULEB128 {
        return Err(Error::UnsupportedPointerEncoding);
    }
    input.read_uleb128()
}

// Passes over the encoding of types and, unless there are none, the number after it.
fn pass_types(input: &mut Cursor<'_>) -> Result<u64, Error>
    ensures { GivesOr (λ number. number) result (types (at input.old)) (at input.new) }
{
    let encoding = parse_pointer_encoding(input)?;
    if encoding.is_absent() {
        return Ok(encoding.0 as u64);
    }
    input.read_uleb128()
}

// Whether all of the bytes are these call sites.
fn are_sites(start: u64, actions: Cursor<'_>, listed: Cursor<'_>, sites: &[ClaimedSite]) -> bool
    ensures { Decides result
        (AreSites start (at actions.entry) (at listed.entry) (map site_of sites.now)) }
{
    let mut input = listed;
    for site in sites {
        if !is_next_site(start, actions, &mut input, site) {
            return false;
        }
    }
    input.is_empty()
}

// Reads a call site, and says whether it is this one. Where it isn't, the cursor is unspecified.
fn is_next_site(start: u64, actions: Cursor<'_>, input: &mut Cursor<'_>, site: &ClaimedSite) -> bool
    ensures { IsNextSite result (site_at start (at actions.entry) (at input.old)) (site_of site.now)
        (at input.new) }
{
    match read_numbers(input) {
        Ok(numbers) => is_spelled(start, actions, numbers, site),
        Err(_) => false,
    }
}

// The numbers of a call site. After a fault the cursor is unspecified.
fn read_numbers(input: &mut Cursor<'_>) -> Result<SiteNumbers, Error>
    ensures { GivesOr (λ n. n) result (site_numbers (at input.old)) (at input.new) }
{
    let from = input.read_uleb128()?;
    let len = input.read_uleb128()?;
    let pad = input.read_uleb128()?;
    let index = input.read_uleb128()?;
    Ok(SiteNumbers {
        from,
        len,
        pad,
        index,
    })
}

// Whether numbers spell a call site of the function at `start`.
fn is_spelled(start: u64, actions: Cursor<'_>, numbers: SiteNumbers, site: &ClaimedSite) -> bool
    ensures { Decides result
        (IsSpelled start (at actions.entry) numbers (site_of site.now)) }
{
    is_distance(start, site.range.from, numbers.from)
        && is_distance(site.range.from, site.range.to, numbers.len)
        && asks(start, actions, numbers.pad, numbers.index, site.action)
}

// Whether an address lies so far after another.
fn is_distance(from: u64, to: u64, distance: u64) -> bool
    ensures { Decides result (to ≡ from + distance) }
{
    from <= to && to - from == distance
}

// Whether a pad and an index into the action table ask for an action.
fn asks(start: u64, actions: Cursor<'_>, pad: u64, index: u64, action: EhAction) -> bool
    ensures { Decides result
        (asked start (at actions.entry) pad index ≡ Ok (action_of action)) }
{
    if pad == 0 {
        return matches!(action, EhAction::None);
    }
    match read_kind(actions, index) {
        Ok(kind) => is_action(kind, start, pad, action),
        Err(_) => false,
    }
}

// What a landing pad is entered for, by its index into the action table, which counts from 1.
fn read_kind(actions: Cursor<'_>, index: u64) -> Result<PadKind, Error>
    ensures { Answers (λ kind. kind) result (kind_at (at actions.entry) index) }
{
    if index == 0 {
        return Ok(PadKind::Cleanup);
    }
    let mut number = actions;
    number.skip(index - 1)?;
    let number = number.read_sleb128_word()?;
    Ok(kind_by(number))
}

fn kind_by(number: u64) -> PadKind
    ensures { result ≡ kind_by number }
{
    if number == 0 {
        PadKind::Cleanup
    } else if number < SIGN {
        PadKind::Catch
    } else {
        PadKind::Filter
    }
}

// Whether an action enters a pad, so far after a function's start, for something.
fn is_action(kind: PadKind, start: u64, pad: u64, action: EhAction) -> bool
    ensures { Decides result (asks_at kind (start + pad) ≡ action_of action) }
{
    match (kind, action) {
        (PadKind::Cleanup, EhAction::Cleanup(target)) => is_distance(start, target, pad),
        (PadKind::Catch, EhAction::Catch(target)) => is_distance(start, target, pad),
        (PadKind::Filter, EhAction::Filter(target)) => is_distance(start, target, pad),
        _ => false,
    }
}
