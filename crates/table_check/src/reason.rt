//! Why functions that are claimed, or a frame table beside them, are refused.

ghost use Rattle.std.specs.Prelude.{◌≡◌, MatchOption, map};
ghost use Rattle.encoded_pointers.specs.PointerViews.{bases_of};
ghost use Rattle.eh_frame.specs.EntryViews.{table_of};
ghost use Rattle.table_check.specs.ClaimViews.{function_of};
ghost use Rattle.table_check.specs.Ranges.{AreInOrder};
ghost use Rattle.table_check.specs.Reasons.{AllStandBeside, AreFunctionsIn, Refuses, RefusesClaims};
ghost use Rattle.table_check.specs.Reasons.{RefusesTable, StandsSoFar};

use crate::claims::{Claim, Claims};
use crate::entries::first_refused_entry;
use crate::extras::first_extra;
use crate::functions::first_no_function;
use crate::ranges::first_out_of_place;
use eh_frame::{Bases, EhFrame};
use fde_finders::{FrameInfo, named_table};
use memory_image::MemoryImage;

/// The part of a check that fails first.
#[derive(Clone, Copy, Debug, PartialEq, Eq)]
pub enum Reason {
    /// The claim at an index isn't one of a function: its steps make no prologue, or its body, its
    /// call sites or its mark as outermost don't fit.
    Claim(usize),
    /// The claim at an index is empty, doesn't lie in the module, or begins below the end of the
    /// claim before.
    Range(usize),
    /// The module's header can't be read, or the address of its frame table isn't mapped.
    Header,
    /// The entry at an offset of the frame table can't be read, or its length isn't spelled by four
    /// bytes.
    Entry(u64),
    /// The description that starts at an address is empty, shares an address with one before it, or
    /// shares one with a claim without having its range.
    Extra(u64),
    /// No description has the range of the claim at an index.
    Missing(usize),
    /// The description of the claim at an index names a common information entry that isn't of the
    /// form that compilers emit, or doesn't stand before it; or its rows aren't those of the claim's
    /// steps and bodies.
    Program(usize),
    /// The description of the claim at an index leads to no language table with the claim's call
    /// sites; or it leads to one, and the claim has none.
    Sites(usize),
    /// The table of the module's header doesn't list the descriptions.
    HeaderTable,
}

/// Why claims aren't those of functions that ascend and lie from `start` to before `end`: the first
/// claim that isn't one of a function, or where all are, the first that isn't in its place. `None`
/// exactly where they are such claims.
pub fn refusal_of_claims(claims: &Claims, start: u64, end: u64) -> Option<Reason>
    ensures { MatchOption result (AreFunctionsIn start end claims.now)
        (λ reason. RefusesClaims start end claims.now reason) }
{
    if let Some(i) = first_no_function(&claims.claims) {
        return Some(Reason::Claim(i));
    }
    match first_out_of_place(&claims.claims, start, end) {
        Some(i) => Some(Reason::Range(i)),
        None => None,
    }
}

/// Why the frame table of an ELF module with the addresses from `start` to before `end` can't
/// describe the functions that are claimed, as far as its entries and their ranges tell: the first
/// reason in the order of [`Reason`]. `None` exactly where there is none. Whether each claim has a
/// description, programs, language tables and a header's table aren't looked at.
pub fn refusal_of_ranges(
    image: &MemoryImage<'_>,
    start: u64,
    end: u64,
    frame: FrameInfo,
    claims: &Claims,
) -> Option<Reason>
    ensures { MatchOption result (StandsSoFar image.now start end frame claims.now)
        (λ reason. Refuses image.now start end frame claims.now reason) }
{
    if let Some(reason) = refusal_of_claims(claims, start, end) {
        return Some(reason);
    }
    let Some(table) = named_table(image, frame) else {
        return Some(Reason::Header);
    };
    let bytes = image.bytes_from(table.frames.address());
    refusal_of_table(&table.frames, &table.bases, bytes, &claims.claims)
}

// Why a frame table with these bytes can't stand beside claims, which are in order.
fn refusal_of_table(
    frames: &EhFrame<'_>,
    bases: &Bases,
    bytes: &[u8],
    claims: &[Claim],
) -> Option<Reason>
    requires bytes { bytes.now ≡ (table_of frames.now).bytes }
    requires order { AreInOrder (map function_of claims.now) }
    ensures { MatchOption result
        (AllStandBeside (bases_of bases.now) (table_of frames.now) (map function_of claims.now))
        (λ reason. RefusesTable (bases_of bases.now) (table_of frames.now)
        (map function_of claims.now) reason) }
{
    if let Some(offset) = first_refused_entry(frames, bytes, bases) {
        return Some(Reason::Entry(offset));
    }
    match first_extra(frames, bases, claims) {
        Some(start) => Some(Reason::Extra(start)),
        None => None,
    }
}
