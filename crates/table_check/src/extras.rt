//! Descriptions beside the functions that are claimed. LSB, section on `.eh_frame`.

ghost use Rattle.std.specs.Prelude.{◌≡◌, ◌⊎◌, ◌+◌, ◌<◌, ◌≤◌, ℕ, List, [], ◌∷◌, MatchOption, false, true};
ghost use Rattle.std.specs.Prelude.{length, map, slice_index_or};
ghost use Rattle.std.specs.Bool.{Decides};
ghost use Rattle.std.specs.List.{AllByRecursion};
ghost use Rattle.unwind_definitions.specs.Entries.{Entry as Described};
ghost use Rattle.unwind_definitions.specs.Scan.{fdes_of};
ghost use Rattle.unwind_definitions.specs.Module.{DescriptionsApart};
ghost use Rattle.encoded_pointers.specs.PointerViews.{bases_of};
ghost use Rattle.eh_frame.specs.EntryViews.{entry_of, fde_of, table_of};
ghost use Rattle.eh_frame.specs.Listing.{listing_of};
ghost use Rattle.table_check.specs.NextEntry.{IsNextEntry, TellsExtra};
ghost use Rattle.table_check.specs.declared.claims.Claim.{Claim as Claimed};
ghost use Rattle.table_check.specs.ClaimViews.{function_of};
ghost use Rattle.table_check.specs.Ranges.{AreInOrder};
ghost use Rattle.table_check.specs.Scanned.{AllMayStandIn, EndsBy, FitsFunction, IsApartFrom};
ghost use Rattle.table_check.specs.Scanned.{IsFirstExtra, MayStand, ReadBefore};

use crate::claims::Claim;
use eh_frame::{Bases, EhFrame, Entries, Entry, Fde};

/// Whether a description has the range of a claim, or shares no address with any. The claims ascend
/// and share no address; the first one that ends after its start is at an index.
pub(crate) fn fits_claims(fde: &Fde<'_>, claims: &[Claim], index: usize) -> bool
    requires order { AreInOrder (map function_of claims.now) }
    requires within { index ≤ length claims.now }
    requires before { (k : ℕ) (d : Claimed) → k < index →
        (slice_index_or claims.now k d).end ≤ (fde_of fde.now).start }
    requires after { (k : ℕ) (d : Claimed) → index ≤ k → k < length claims.now →
        (fde_of fde.now).start < (slice_index_or claims.now k d).end }
    ensures { Decides result
        (AllByRecursion (FitsFunction (fde_of fde.now)) (map function_of claims.now)) }
{
    if index == claims.len() {
        return true;
    }
    let claim = &claims[index];
    fits(claim.start, claim.end, fde.initial_address(), fde.len())
}

// Whether a description has the range of a claim that ends after its start, or ends before it.
fn fits(claim_start: u64, claim_end: u64, start: u64, len: u64) -> bool
    requires { start < claim_end }
    ensures { Decides result (((start ≡ claim_start) × (start + len ≡ claim_end))
        ⊎ (start + len ≤ claim_start)) }
{
    if claim_start < start {
        return false;
    }
    if len <= claim_start - start {
        return true;
    }
    claim_start == start && claim_end - start == len
}

/// The index of the first claim that ends after a description's start, or how many there are: the
/// one that is guessed, or else it is found by halving.
pub(crate) fn first_ending_after_start(claims: &[Claim], fde: &Fde<'_>, guess: usize) -> usize
    requires { AreInOrder (map function_of claims.now) }
    ensures within { result ≤ length claims.now }
    ensures before { (k : ℕ) (d : Claimed) → k < result →
        (slice_index_or claims.now k d).end ≤ (fde_of fde.now).start }
    ensures after { (k : ℕ) (d : Claimed) → result ≤ k → k < length claims.now →
        (fde_of fde.now).start < (slice_index_or claims.now k d).end }
{
    first_ending_after(claims, fde.initial_address(), guess)
}

// The index of the first claim that ends after an address.
fn first_ending_after(claims: &[Claim], address: u64, guess: usize) -> usize
    requires { AreInOrder (map function_of claims.now) }
    ensures within { result ≤ length claims.now }
    ensures before { (k : ℕ) (d : Claimed) → k < result →
        (slice_index_or claims.now k d).end ≤ address }
    ensures after { (k : ℕ) (d : Claimed) → result ≤ k → k < length claims.now →
        address < (slice_index_or claims.now k d).end }
{
    if guess <= claims.len()
        && end_by(claims, address, guess)
        && end_after(claims, address, guess)
    {
        return guess;
    }
    halved(claims, address)
}

// Whether the claims before an index end at or before an address.
fn end_by(claims: &[Claim], address: u64, index: usize) -> bool
    requires order { AreInOrder (map function_of claims.now) }
    requires within { index ≤ length claims.now }
    ensures { result ≡ true → (k : ℕ) (d : Claimed) → k < index →
        (slice_index_or claims.now k d).end ≤ address }
{
    if index == 0 {
        return true;
    }
    claims[index - 1].end <= address
}

// Whether the claims from an index on end after an address.
fn end_after(claims: &[Claim], address: u64, index: usize) -> bool
    requires order { AreInOrder (map function_of claims.now) }
    requires within { index ≤ length claims.now }
    ensures { result ≡ true → (k : ℕ) (d : Claimed) → index ≤ k → k < length claims.now →
        address < (slice_index_or claims.now k d).end }
{
    if index == claims.len() {
        return true;
    }
    address < claims[index].end
}

// The index of the first claim that ends after an address, by halving.
fn halved(claims: &[Claim], address: u64) -> usize
    requires { AreInOrder (map function_of claims.now) }
    ensures within { result ≤ length claims.now }
    ensures before { (k : ℕ) (d : Claimed) → k < result →
        (slice_index_or claims.now k d).end ≤ address }
    ensures after { (k : ℕ) (d : Claimed) → result ≤ k → k < length claims.now →
        address < (slice_index_or claims.now k d).end }
{
    let mut low = 0;
    let mut high = claims.len();
    while low < high {
        let middle = low + (high - low) / 2;
        if claims[middle].end <= address {
            low = middle + 1;
        } else {
            high = middle;
        }
    }
    low
}

/// Where the first description starts that is empty, shares an address with one before it, or
/// shares one with a claim without having its range. The claims ascend and share no address.
///
/// A description is compared with those before it one by one only where it starts below the end of
/// one of them.
pub(crate) fn first_extra(frames: &EhFrame<'_>, bases: &Bases, claims: &[Claim]) -> Option<u64>
    requires { AreInOrder (map function_of claims.now) }
    ensures { MatchOption result
        (AllMayStandIn (bases_of bases.now) (table_of frames.now) (map function_of claims.now))
        (λ start. IsFirstExtra (bases_of bases.now) (table_of frames.now)
        (map function_of claims.now) start) }
{
    let mut entries = frames.entries(bases);
    let mut count = 0;
    let mut highest = 0;
    loop {
        let Some(entry) = next_entry(&mut entries) else {
            return None;
        };
        if let Some(start) = extra_start(frames, bases, claims, &entry, count, highest) {
            return Some(start);
        }
        highest = highest_after(&entry, highest);
        count += 1;
    }
}

// Where an entry's description starts, if it is one that may not stand after so many entries, whose
// descriptions end at or before an address.
fn extra_start(
    frames: &EhFrame<'_>,
    bases: &Bases,
    claims: &[Claim],
    entry: &Entry<'_>,
    count: u64,
    highest: u64,
) -> Option<u64>
    requires { AreInOrder (map function_of claims.now) }
    ensures { (before : List Described) (end : ℕ) → length before ≡ count →
        ReadBefore (bases_of bases.now) (table_of frames.now) 0 before end →
        AllByRecursion (EndsBy highest) (fdes_of before) →
        TellsExtra (map function_of claims.now) (fdes_of before) (entry_of entry.now) result }
{
    match entry {
        Entry::Cie(_) => None,
        Entry::Fde(fde) => {
            let index = first_ending_after_start(claims, fde, 0);
            if may_stand(frames, bases, claims, fde, count, highest, index) {
                None
            } else {
                Some(fde.initial_address())
            }
        }
    }
}

// An address at or after which the descriptions end, an entry's included.
fn highest_after(entry: &Entry<'_>, highest: u64) -> u64
    ensures ends { AllByRecursion (EndsBy result) (fdes_of (entry_of entry.now ∷ [])) }
    ensures higher { highest ≤ result }
{
    match entry {
        Entry::Cie(_) => highest,
        Entry::Fde(fde) => later_end(fde, highest),
    }
}

// Whether a description shares no address with an entry's, if that is a description.
fn is_apart_from(entry: &Entry<'_>, fde: &Fde<'_>) -> bool
    ensures { Decides result
        (AllByRecursion (IsApartFrom (fde_of fde.now)) (fdes_of (entry_of entry.now ∷ []))) }
{
    match entry {
        Entry::Cie(_) => true,
        Entry::Fde(earlier) => are_apart(earlier, fde),
    }
}

/// Whether a description may stand after so many entries, whose descriptions end at or before an
/// address. The first claim that ends after its start is at an index.
pub(crate) fn may_stand(
    frames: &EhFrame<'_>,
    bases: &Bases,
    claims: &[Claim],
    fde: &Fde<'_>,
    count: u64,
    highest: u64,
    index: usize,
) -> bool
    requires order { AreInOrder (map function_of claims.now) }
    requires within { index ≤ length claims.now }
    requires before { (k : ℕ) (d : Claimed) → k < index →
        (slice_index_or claims.now k d).end ≤ (fde_of fde.now).start }
    requires after { (k : ℕ) (d : Claimed) → index ≤ k → k < length claims.now →
        (fde_of fde.now).start < (slice_index_or claims.now k d).end }
    ensures { (before : List Described) (end : ℕ) → length before ≡ count →
        ReadBefore (bases_of bases.now) (table_of frames.now) 0 before end →
        AllByRecursion (EndsBy highest) (fdes_of before) →
        Decides result (MayStand (map function_of claims.now) (fdes_of before) (fde_of fde.now)) }
{
    fde.len() > 0 && is_apart(frames, bases, fde, count, highest) && fits_claims(fde, claims, index)
}

// Whether a description shares no address with those before it.
fn is_apart(frames: &EhFrame<'_>, bases: &Bases, fde: &Fde<'_>, count: u64, highest: u64) -> bool
    ensures { (before : List Described) (end : ℕ) → length before ≡ count →
        ReadBefore (bases_of bases.now) (table_of frames.now) 0 before end →
        AllByRecursion (EndsBy highest) (fdes_of before) →
        Decides result (AllByRecursion (IsApartFrom (fde_of fde.now)) (fdes_of before)) }
{
    if highest <= fde.initial_address() {
        return true;
    }
    is_apart_from_each(frames, bases, fde, count)
}

// The same, one by one.
fn is_apart_from_each(frames: &EhFrame<'_>, bases: &Bases, fde: &Fde<'_>, count: u64) -> bool
    ensures { (before : List Described) (end : ℕ) → length before ≡ count →
        ReadBefore (bases_of bases.now) (table_of frames.now) 0 before end →
        Decides result (AllByRecursion (IsApartFrom (fde_of fde.now)) (fdes_of before)) }
{
    let mut entries = frames.entries(bases);
    for _turn in 0..count {
        let Some(entry) = next_entry(&mut entries) else {
            return true;
        };
        if !is_apart_from(&entry, fde) {
            return false;
        }
    }
    true
}

/// The next entry, `None` at the end and where it can't be read.
pub(crate) fn next_entry<'a>(entries: &mut Entries<'a>) -> Option<Entry<'a>>
    ensures { (listing_of entries.old).is_over ≡ false →
        IsNextEntry (listing_of entries.old) result (listing_of entries.new) }
{
    match entries.next() {
        Ok(entry) => entry,
        Err(_) => None,
    }
}

// Whether two descriptions share no address.
fn are_apart(earlier: &Fde<'_>, later: &Fde<'_>) -> bool
    ensures { Decides result (DescriptionsApart (fde_of earlier.now) (fde_of later.now)) }
{
    let (a, b) = (earlier.initial_address(), later.initial_address());
    (a <= b && earlier.len() <= b - a) || (b <= a && later.len() <= a - b)
}

/// The end of a description, or a higher one.
pub(crate) fn later_end(fde: &Fde<'_>, highest: u64) -> u64
    ensures end { EndsBy result (fde_of fde.now) }
    ensures higher { highest ≤ result }
{
    highest.max(fde.initial_address().saturating_add(fde.len()))
}
