//! Whether a module describes the functions that are claimed.

ghost use Rattle.std.specs.Prelude.{◌≡◌, ◌∷◌, ℕ, [], None, Option, Some, map};
ghost use Rattle.std.specs.List.{AllByRecursion};
ghost use Rattle.unwind_definitions.specs.Function.{IsFunction};
ghost use Rattle.unwind_definitions.specs.Prologue.{SystemV};
ghost use Rattle.eh_frame.specs.EntryViews.{table_of};
ghost use Rattle.fde_finders.specs.FrameTables.{table_by_kind};
ghost use Rattle.fde_finders.specs.NamedTables.{named_of};
ghost use Rattle.fde_finders.specs.declared.custom.FrameInfoKind.TheVariants as names;
ghost use Rattle.unwind_laws.specs.Pushing as pushing;
ghost use Rattle.table_check.specs.declared.verdict.Verdict.{Verdict as Answer};
ghost use Rattle.table_check.specs.declared.verdict.Verdict.TheVariants.{Yes};
ghost use Rattle.table_check.specs.ClaimViews.{function_of};
ghost use Rattle.table_check.specs.Findings.{AreFound, IsAnswer};
ghost use Rattle.table_check.specs.Modules.{tables_of};
ghost use Rattle.table_check.specs.Ranges.{AreInOrder};
ghost use Rattle.table_check.specs.Verdicts.{IsVerdict};

use crate::claims::{Claim, Claims};
use crate::findings::{Findings, go_through};
use crate::header_tables::lists_descriptions;
use crate::marks::{first_missing, first_other_program, first_other_sites};
use crate::reason::{Reason, refusal_of_claims};
use fde_finders::{FrameInfo, FrameInfoKind, NamedTable, named_table};
use memory_image::MemoryImage;

/// What a check answers.
#[derive(Clone, Copy, Debug, PartialEq, Eq)]
pub enum Verdict {
    /// The module describes the functions, which ascend.
    Yes,
    /// It doesn't, or they don't: the part that fails first.
    No(Reason),
}

/// Whether the tables of an ELF module with the addresses from `start` to before `end` describe the
/// functions that are claimed: the frame table has one description for each, of its code and of its
/// language table, its other descriptions are of other code, and the header's table, where there is
/// one, lists them all. A refusal names the first part that fails, in the order of [`Reason`].
///
/// It takes no memory, and leaves what is claimed.
///
/// Source: LSB, sections on `.eh_frame` and `.eh_frame_hdr`; DWARF 5 section 6.4; Itanium C++ ABI,
/// exception handling tables.
pub fn check(
    image: &MemoryImage<'_>,
    start: u64,
    end: u64,
    frame: FrameInfo,
    claims: &mut Claims,
) -> Verdict
    ensures verdict { IsVerdict image.now start end frame claims.old result }
    ensures only { (other : Answer) → IsVerdict image.now start end frame claims.old other →
        result ≡ other }
    ensures unchanged { claims.new ≡ claims.old }
{
    if let Some(reason) = refusal_of_claims(claims, start, end) {
        return Verdict::No(reason);
    }
    let Some(table) = named_table(image, frame) else {
        return Verdict::No(Reason::Header);
    };
    let bytes = image.bytes_from(table.frames.address());
    match refusal_of_table(image, frame.kind, &table, bytes, &mut claims.claims) {
        Some(reason) => Verdict::No(reason),
        None => Verdict::Yes,
    }
}

/// The module of a function that pushes RBX describes it: a check of this claim answers `Yes`.
pub fn one_push_is_described()
    ensures { IsVerdict pushing.image 0x401000 0x401010
        (record { text_base = None; kind = names.EhFrame 0x500000 })
        (pushing.function ∷ []) Yes }
{}

// Why the frame table that a module names doesn't describe claims, or its header's table doesn't
// list its descriptions. The table's entries are gone through once; `bytes` are those of the table.
fn refusal_of_table(
    image: &MemoryImage<'_>,
    kind: FrameInfoKind,
    table: &NamedTable<'_>,
    bytes: &[u8],
    claims: &mut [Claim],
) -> Option<Reason>
    requires bytes { bytes.now ≡ (table_of table.now.frames).bytes }
    requires order { AreInOrder (map function_of claims.old) }
    requires functions { AllByRecursion (IsFunction SystemV) (map function_of claims.old) }
    ensures same { map function_of claims.new ≡ map function_of claims.old }
    ensures reason { (text : Option ℕ) →
        table_by_kind text kind image.now ≡ Some (named_of table.now) →
        IsAnswer image.now (named_of table.now) (tables_of kind) (map function_of claims.old)
        result }
{
    match go_through(image, table, bytes, claims) {
        Ok(found) => refusal_of_found(image, kind, table, claims, &found),
        Err(offset) => Some(Reason::Entry(offset)),
    }
}

// The same by what its entries tell.
fn refusal_of_found(
    image: &MemoryImage<'_>,
    kind: FrameInfoKind,
    table: &NamedTable<'_>,
    claims: &[Claim],
    found: &Findings,
) -> Option<Reason>
    ensures { (text : Option ℕ) → table_by_kind text kind image.now ≡ Some (named_of table.now) →
        AreFound image.now (named_of table.now) (map function_of claims.now) claims.now found.now →
        IsAnswer image.now (named_of table.now) (tables_of kind) (map function_of claims.now)
        result }
{
    if let Some(start) = found.extra {
        return Some(Reason::Extra(start));
    }
    if let Some(i) = first_missing(claims) {
        return Some(Reason::Missing(i));
    }
    if let Some(i) = first_other_program(claims) {
        return Some(Reason::Program(i));
    }
    if let Some(i) = first_other_sites(claims) {
        return Some(Reason::Sites(i));
    }
    if lists_descriptions(image, kind, table, found) {
        None
    } else {
        Some(Reason::HeaderTable)
    }
}
