//! Which claims have a description, and what these say. LSB, section on `.eh_frame`; Itanium C++ ABI,
//! exception handling tables.

ghost use Rattle.std.specs.Prelude.{◌≡◌, ◌==◌, ◌+◌, ◌<◌, ◌≤◌, ◌&&◌, ◌++◌, ◌∷◌, ℕ, IsTrue, List, []};
ghost use Rattle.std.specs.Prelude.{length, map, slice_index_or};
ghost use Rattle.std.specs.Bool.{Decides};
ghost use Rattle.std.specs.List.{AllByRecursion};
ghost use Rattle.memory_image.specs.Image.{Span};
ghost use Rattle.unwind_definitions.specs.Pointers.{Bases as Relative};
ghost use Rattle.unwind_definitions.specs.Entries.{Fde as Description};
ghost use Rattle.unwind_definitions.specs.FrameTable.{DescribesCode, has_range_of};
ghost use Rattle.unwind_definitions.specs.Function.{IsFunction};
ghost use Rattle.unwind_definitions.specs.LanguageTable.{LeadsToLanguage};
ghost use Rattle.unwind_definitions.specs.Prologue.{SystemV};
ghost use Rattle.encoded_pointers.specs.PointerViews.{bases_of};
ghost use Rattle.eh_frame.specs.EntryViews.{fde_of};
ghost use Rattle.table_check.specs.AllEntries.{AllApart};
ghost use Rattle.table_check.specs.declared.claims.Claim.{Claim as Claimed};
ghost use Rattle.table_check.specs.ClaimViews.{function_of};
ghost use Rattle.table_check.specs.Descriptions.{HasCode, HasLanguage};
ghost use Rattle.table_check.specs.First.{TellsFirst};
ghost use Rattle.table_check.specs.Marks.{AreMarked, IsMarked, IsUnmarked};
ghost use Rattle.table_check.specs.Ranges.{AreInOrder};
ghost use Rattle.table_check.specs.Scanned.{IsDescribedAmong};

use crate::claims::{Claim, Described};
use crate::descriptions::describes_code;
use crate::language::has_sites;
use eh_frame::{Bases, Fde, RowWalk};
use memory_image::MemoryImage;

/// Notes no description for any claim.
pub(crate) fn forget_descriptions(claims: &mut [Claim])
    ensures same { map function_of claims.new ≡ map function_of claims.old }
    ensures none { AllByRecursion IsUnmarked claims.new }
{
    for i in 0..claims.len() {
        claims[i].description = None;
    }
}

/// Notes what a description says for the claim that has its range, if there is one. The claims
/// ascend and share no address; the first one that ends after its start is at an index. Answers a
/// guess for the next one.
pub(crate) fn note<'a>(
    image: &MemoryImage<'_>,
    bases: &Bases,
    claims: &mut [Claim],
    fde: &Fde<'a>,
    index: usize,
    walk: &mut RowWalk<'a>,
) -> usize
    requires order { AreInOrder (map function_of claims.old) }
    requires within { index ≤ length claims.old }
    requires before { (k : ℕ) (d : Claimed) → k < index →
        (slice_index_or claims.old k d).end ≤ (fde_of fde.now).start }
    requires after { (k : ℕ) (d : Claimed) → index ≤ k → k < length claims.old →
        (fde_of fde.now).start < (slice_index_or claims.old k d).end }
    requires functions { AllByRecursion (IsFunction SystemV) (map function_of claims.old) }
    ensures same { map function_of claims.new ≡ map function_of claims.old }
    ensures marks { (before : List Description) →
        AreMarked image.now (bases_of bases.now) before claims.old →
        AreMarked image.now (bases_of bases.now) (before ++ fde_of fde.now ∷ []) claims.new }
{
    if index == claims.len() {
        return index;
    }
    if !has_range(&claims[index], fde) {
        return index;
    }
    let described = describe(image, &claims[index], fde, bases, walk);
    claims[index].description = Some(described);
    index + 1
}

// What a description says that has a claim's range.
fn describe<'a>(
    image: &MemoryImage<'_>,
    claim: &Claim,
    fde: &Fde<'a>,
    bases: &Bases,
    walk: &mut RowWalk<'a>,
) -> Described
    requires function { IsFunction SystemV (function_of claim.now) }
    requires range { IsTrue (has_range_of (function_of claim.now) (fde_of fde.now)) }
    ensures code { Decides result.has_code (DescribesCode image.now (bases_of bases.now)
        (function_of claim.now) (fde_of fde.now)) }
    ensures language { Decides result.has_language
        (LeadsToLanguage image.now (function_of claim.now) (fde_of fde.now).language) }
{
    Described {
        has_code: describes_code(image, claim, fde, bases, walk),
        has_language: has_sites(image, claim, fde),
    }
}

/// Whether a description has the range of a claim.
pub(crate) fn has_range(claim: &Claim, fde: &Fde<'_>) -> bool
    ensures { result ≡ has_range_of (function_of claim.now) (fde_of fde.now) }
{
    is_range(claim.start, claim.end, fde.initial_address(), fde.len())
}

// Whether a range of a length is one from a start to before an end.
fn is_range(start: u64, end: u64, from: u64, len: u64) -> bool
    ensures { result ≡ ((from == start) && (from + len == end)) }
{
    from == start && start <= end && end - start == len
}

/// The first claim for which no description is noted.
pub(crate) fn first_missing(claims: &[Claim]) -> Option<usize>
    ensures { (image : List Span) (bases : Relative) (fdes : List Description) →
        AreMarked image bases fdes claims.now →
        TellsFirst (IsDescribedAmong fdes) (map function_of claims.now) result }
{
    for (i, claim) in claims.iter().enumerate() {
        if claim.description.is_none() {
            return Some(i);
        }
    }
    None
}

/// The first claim whose description isn't one of its code. A description is noted for each claim.
pub(crate) fn first_other_program(claims: &[Claim]) -> Option<usize>
    ensures { (image : List Span) (bases : Relative) (fdes : List Description) → AllApart fdes →
        AreMarked image bases fdes claims.now →
        AllByRecursion (IsDescribedAmong fdes) (map function_of claims.now) →
        TellsFirst (HasCode image bases fdes) (map function_of claims.now) result }
{
    for (i, claim) in claims.iter().enumerate() {
        if !has_code(claim) {
            return Some(i);
        }
    }
    None
}

/// The first claim whose description doesn't lead to its language table. A description is noted for
/// each claim.
pub(crate) fn first_other_sites(claims: &[Claim]) -> Option<usize>
    ensures { (image : List Span) (bases : Relative) (fdes : List Description) → AllApart fdes →
        AreMarked image bases fdes claims.now →
        AllByRecursion (IsDescribedAmong fdes) (map function_of claims.now) →
        TellsFirst (HasLanguage image bases fdes) (map function_of claims.now) result }
{
    for (i, claim) in claims.iter().enumerate() {
        if !has_language(claim) {
            return Some(i);
        }
    }
    None
}

// Whether the description that is noted for a claim is one of its code.
fn has_code(claim: &Claim) -> bool
    ensures { (image : List Span) (bases : Relative) (fdes : List Description) → AllApart fdes →
        IsMarked image bases fdes claim.now → IsDescribedAmong fdes (function_of claim.now) →
        Decides result (HasCode image bases fdes (function_of claim.now)) }
{
    match claim.description {
        Some(described) => described.has_code,
        None => false,
    }
}

// Whether the description that is noted for a claim leads to its language table.
fn has_language(claim: &Claim) -> bool
    ensures { (image : List Span) (bases : Relative) (fdes : List Description) → AllApart fdes →
        IsMarked image bases fdes claim.now → IsDescribedAmong fdes (function_of claim.now) →
        Decides result (HasLanguage image bases fdes (function_of claim.now)) }
{
    match claim.description {
        Some(described) => described.has_language,
        None => false,
    }
}
