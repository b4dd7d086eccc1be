//! Which claims a module's tables don't say.

ghost use Rattle.std.specs.Prelude.{◌≡◌, ◌⊎◌, ◌↔◌, ◌++◌, ◌∷◌, ◌<◌, ◌≤◌, ℕ, List, [], Some, None};
ghost use Rattle.std.specs.Prelude.{true};
ghost use Rattle.std.specs.Prelude.{map, slice_get, IfErr, IfOk, IfSome, IsTrue, MatchOption, OnOk};
ghost use Rattle.std.specs.List.{AllPairs};
ghost use Rattle.unwind_definitions.specs.Entries.{Fde as Description};
ghost use Rattle.unwind_definitions.specs.Function.{in_range};
ghost use Rattle.unwind_definitions.specs.Module.{DescriptionsApart, bases_of};
ghost use Rattle.unwind_definitions.specs.Row.{covers_pc};
ghost use Rattle.unwind_definitions.specs.Scan.{fdes_of};
ghost use Rattle.frame_facts.specs.FactTables.{HasTables, SaysFactsAt};
ghost use Rattle.frame_facts.specs.Claims.{Claim, IsClaimSaid, SaysClaims};
ghost use Rattle.encoded_pointers.specs.PointerViews.{bases_of as relative_of};
ghost use Rattle.eh_frame.specs.EntryViews.{fde_of};
ghost use Rattle.fde_finders.specs.NamedTables.{named_of};
ghost use Rattle.table_check.specs.Modules.{module_of};
ghost use Rattle.fact_checks.specs.declared.auditing.AuditError.TheVariants.{NoMemory};
ghost use Rattle.fact_checks.specs.declared.stretches.Difference.{Difference as Found};
ghost use Rattle.fact_checks.specs.Audits.{AreAudited, AreDifferencesOf, NoneOf, refusal_of};
ghost use Rattle.fact_checks.specs.Looking.{FindsAmong, IsBegun, IsIndexOf, IsListed};
ghost use Rattle.fact_checks.specs.Looking.{IsListedAt, MayAsk, RefusesRange};
ghost use Rattle.fact_checks.specs.ClaimViews.{claim_of};
ghost use Rattle.fact_checks.specs.InOrder.{AreInOrder};

use crate::facts::ClaimedFacts;
use crate::order::first_out_of_order;
use crate::rows::Mismatch;
use crate::stretches::{Difference, add_differences, put};
use crate::table::{description_at, index_of};
use eh_frame::{Fde, Prepared, RowWalk};
use fde_finders::{FrameInfo, NamedTable, named_table};
use memory_image::MemoryImage;
use std::alloc::{AllocError, Global};

/// Why nothing is audited.
#[derive(Clone, Copy, Debug, PartialEq, Eq, thiserror::Error)]
pub enum AuditError {
    /// The range of the claim at this place is empty, or begins before the end of the one before it.
    #[error("claim {0} is out of order")]
    Claim(usize),
    /// The header of the frame table can't be read, or leads to no mapped address.
    #[error("there is no frame table")]
    Tables,
    /// Memory ran out.
    #[error("out of memory")]
    NoMemory,
}

impl From<AllocError> for AuditError {
    ghost from_gives = { λ _ e. e ≡ NoMemory };

    fn from(_e: AllocError) -> AuditError {
        AuditError::NoMemory
    }
}

// A description, and the address of whose row a walk has.
#[derive(Clone, Copy)]
pub(crate) struct Begun<'a> {
    fde: Fde<'a>,
    at: u64,
}

/// Where the tables of an ELF module don't say what is claimed of its code, in the order of the
/// claims, whose ranges ascend.
///
/// A claim is in no difference exactly where one description, which isn't of a signal's frame,
/// contains its range, and the description's row at each address of the range says what is claimed;
/// if the module's tables read. Each description is looked up once, by the header's table, and its
/// rows are gone through once. Memory is taken for the list alone; and where there is no header's
/// table, for an index of the frame table.
///
/// Source: DWARF 5 section 6.4.1; LSB, sections on `.eh_frame` and `.eh_frame_hdr`.
///
/// # Errors
///
/// `Claim` with the first claim whose range is empty or begins before the end of the one before it;
/// `Tables` where no frame table is found; `NoMemory` where memory ran out.
pub fn audit(
    alloc: Global,
    image: &MemoryImage<'_>,
    frame: FrameInfo,
    claims: &[ClaimedFacts],
) -> Result<Vec<Difference>, AuditError>
    ensures refused { IfErr result (λ error. (error ≡ NoMemory) ⊎
        (refusal_of image.now frame (map claim_of claims.now) ≡ Some error)) }
    ensures taken { IfOk result (λ differences.
        refusal_of image.now frame (map claim_of claims.now) ≡ None) }
    ensures order { IfOk result (λ differences. AreInOrder 0 (map claim_of claims.now)) }
    ensures audited { IfOk result (λ differences. (start end : ℕ)
        (d : HasTables image.now (module_of start end frame)) →
        AreAudited (bases_of (module_of start end frame) d.frame) (fdes_of d.entries) 0
        (map claim_of claims.now) differences.items) }
    ensures exact { IfOk result (λ differences. (start end : ℕ)
        (d : HasTables image.now (module_of start end frame)) (i : ℕ) (claim : Claim) →
        slice_get (map claim_of claims.now) i ≡ Some claim →
        NoneOf i differences.items ↔
        IsClaimSaid (bases_of (module_of start end frame) d.frame) (fdes_of d.entries) claim) }
    ensures said { IfOk result (λ differences. (start end : ℕ) →
        SaysClaims image.now (module_of start end frame) (map claim_of claims.now) →
        differences.items ≡ []) }
    ensures facts { IfOk result (λ differences. (start end : ℕ) (i a : ℕ) (claim : Claim) →
        HasTables image.now (module_of start end frame) →
        slice_get (map claim_of claims.now) i ≡ Some claim → NoneOf i differences.items →
        IsTrue (in_range a claim.range) →
        SaysFactsAt image.now (module_of start end frame) a claim.facts) }
{
    if let Some(i) = first_out_of_order(claims) {
        return Err(AuditError::Claim(i));
    }
    image.laid_out();
    let Some(table) = named_table(image, frame) else {
        return Err(AuditError::Tables);
    };
    let index = index_of(alloc, &table)?;
    Ok(differences_in(alloc, &table, &index, claims)?)
}

// The differences of claims by the descriptions of a frame table.
fn differences_in<'a>(
    alloc: Global,
    table: &NamedTable<'a>,
    index: &Option<Prepared<'a>>,
    claims: &[ClaimedFacts],
) -> Result<Vec<Difference>, AllocError>
    requires order { AreInOrder 0 (map claim_of claims.now) }
    requires index { IsIndexOf (named_of table.now) index.now }
    ensures { IfOk result (λ differences. (fdes : List Description) →
        FindsAmong (named_of table.now) fdes → AllPairs DescriptionsApart fdes →
        AreAudited (relative_of table.now.bases) fdes 0 (map claim_of claims.now)
        differences.items) }
{
    let mut differences = Vec::new(alloc);
    let mut walk = RowWalk::new();
    let mut begun = None;
    for (i, claim) in claims.iter().enumerate() {
        add_claim(
            table,
            index,
            claim,
            i,
            &mut begun,
            &mut walk,
            &mut differences,
        )?;
    }
    Ok(differences)
}

// Adds the differences of a claim, and leaves how far the rows of its description were gone
// through.
fn add_claim<'a>(
    table: &NamedTable<'a>,
    index: &Option<Prepared<'a>>,
    claim: &ClaimedFacts,
    place: usize,
    begun: &mut Option<Begun<'a>>,
    walk: &mut RowWalk<'a>,
    differences: &mut Vec<Difference>,
) -> Result<(), AllocError>
    requires index { IsIndexOf (named_of table.now) index.now }
    requires some { claim.now.from < claim.now.to }
    requires begun { IsBegun (relative_of table.now.bases) walk.old claim.now.from begun.old }
    ensures begun { IfOk result (λ _.
        IsBegun (relative_of table.now.bases) walk.new claim.now.to begun.new) }
    ensures differences { IfOk result (λ _. (fdes : List Description) →
        FindsAmong (named_of table.now) fdes → AllPairs DescriptionsApart fdes →
        IsListed fdes begun.old →
        IsListed fdes begun.new × (own : List Found)
        × (differences.new.items ≡ differences.old.items ++ own)
        × AreDifferencesOf (relative_of table.now.bases) fdes place (claim_of claim.now) own) }
{
    begin_for(table, index, claim.from, begun, walk);
    let Some(begun) = begun else {
        put_whole(differences, claim, place, Mismatch::NoDescription)?;
        return Ok(());
    };
    if let Some(mismatch) = refusal(&begun.fde, claim) {
        put_whole(differences, claim, place, mismatch)?;
        return Ok(());
    }
    add_differences(
        claim,
        place,
        &begun.fde,
        &table.bases,
        begun.at,
        walk,
        differences,
    )?;
    begun.at = claim.to;
    Ok(())
}

// Begins the rows of the description that contains an address, where those that are begun aren't
// its.
fn begin_for<'a>(
    table: &NamedTable<'a>,
    index: &Option<Prepared<'a>>,
    pc: u64,
    begun: &mut Option<Begun<'a>>,
    walk: &mut RowWalk<'a>,
)
    requires index { IsIndexOf (named_of table.now) index.now }
    requires begun { IsBegun (relative_of table.now.bases) walk.old pc begun.old }
    ensures begun { IsBegun (relative_of table.now.bases) walk.new pc begun.new }
    ensures covers { IfSome begun.new (λ b. covers_pc (fde_of b.fde) pc ≡ true) }
    ensures listed { (fdes : List Description) → FindsAmong (named_of table.now) fdes →
        IsListed fdes begun.old → IsListedAt fdes pc begun.new }
{
    if let Some(begun) = begun {
        if begun.fde.contains(pc) {
            return;
        }
    }
    *begun = None;
    if let Some(fde) = description_at(table, index, pc) {
        fde.begin_rows(&table.bases, walk);
        *begun = Some(Begun {
            fde,
            at: fde.initial_address(),
        });
    }
}

// Why the rows of a description that contains the first address of a claim's range aren't asked.
fn refusal(fde: &Fde<'_>, claim: &ClaimedFacts) -> Option<Mismatch>
    requires from { (fde_of fde.now).start ≤ claim.now.from }
    requires some { claim.now.from < claim.now.to }
    ensures { MatchOption result (MayAsk (fde_of fde.now) (claim_of claim.now))
        (λ mismatch. RefusesRange (fde_of fde.now) (claim_of claim.now) mismatch) }
{
    if claim.to - fde.initial_address() > fde.len() {
        return Some(Mismatch::NoDescription);
    }
    if fde.is_signal_trampoline() {
        return Some(Mismatch::SignalFrame);
    }
    None
}

// Adds the difference of a claim none of whose rows is looked at.
fn put_whole(
    differences: &mut Vec<Difference>,
    claim: &ClaimedFacts,
    place: usize,
    mismatch: Mismatch,
) -> Result<(), AllocError>
    ensures { OnOk result (differences.new.items ≡ differences.old.items ++ record
        { claim = place; address = claim.now.from; mismatch = mismatch } ∷ []) }
{
    let difference = Difference {
        claim: place,
        address: claim.from,
        mismatch,
    };
    put(differences, Some(difference))
}
