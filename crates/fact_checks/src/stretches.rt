//! The rows of the stretches of a claim's range. DWARF 5 sections 6.4.1 and 6.4.3.

ghost use Rattle.std.specs.Prelude.{◌≡◌, ◌++◌, ◌<◌, ◌≤◌, ℕ, List, IfOk, MatchOption, OnOk};
ghost use Rattle.std.specs.Option.{option_to_list};
ghost use Rattle.unwind_definitions.specs.Pointers.{Bases as Relative};
ghost use Rattle.unwind_definitions.specs.Entries.{Fde as Description};
ghost use Rattle.encoded_pointers.specs.PointerViews.{bases_of};
ghost use Rattle.eh_frame.specs.EntryViews.{fde_of};
ghost use Rattle.frame_rows.specs.Walks.{IsBefore, end_of};
ghost use Rattle.fact_checks.specs.declared.stretches.Difference.{Difference as Found};
ghost use Rattle.fact_checks.specs.ClaimViews.{claim_of};
ghost use Rattle.fact_checks.specs.Stretches.{AreDifferences, HasRowAt};

use crate::facts::ClaimedFacts;
use crate::rows::{Mismatch, mismatch_at};
use eh_frame::{Bases, Fde, RowWalk};
use std::alloc::AllocError;

/// Where a module's tables don't say what a claim says, and why.
#[derive(Clone, Copy, Debug, PartialEq, Eq)]
pub struct Difference {
    /// The claim's place in the list of claims.
    pub claim: usize,
    /// The first address of the stretch whose row differs; or that of the claim's range.
    pub address: u64,
    /// Why.
    pub mismatch: Mismatch,
}

/// Adds the differences of a claim to a list: one for each stretch of its range whose row in a
/// description isn't as is claimed. The walk goes on from the row that it has at `start`.
pub(crate) fn add_differences<'a>(
    claim: &ClaimedFacts,
    index: usize,
    fde: &Fde<'a>,
    bases: &Bases,
    start: u64,
    walk: &mut RowWalk<'a>,
    differences: &mut Vec<Difference>,
) -> Result<(), AllocError>
    requires row { HasRowAt (bases_of bases.now) (fde_of fde.now) walk.old start }
    requires start { start ≤ claim.now.from }
    requires some { claim.now.from ≤ claim.now.to }
    ensures row { IfOk result (λ _.
        HasRowAt (bases_of bases.now) (fde_of fde.now) walk.new claim.now.to) }
    ensures differences { IfOk result (λ _. (own : List Found)
        × (differences.new.items ≡ differences.old.items ++ own)
        × AreDifferences (bases_of bases.now) (fde_of fde.now) index (claim_of claim.now) start
        claim.now.to own) }
{
    let mut pc = start;
    while pc < claim.to {
        let next = row_end(walk, claim.to);
        put(
            differences,
            difference_between(claim, index, pc, next, walk),
        )?;
        if walk.end() == Some(next) {
            fde.go_on(bases, walk);
        }
        pc = next;
    }
    Ok(())
}

/// Adds a difference to a list, if there is one.
pub(crate) fn put(
    differences: &mut Vec<Difference>,
    difference: Option<Difference>,
) -> Result<(), AllocError>
    ensures { OnOk result
        (differences.new.items ≡ differences.old.items ++ option_to_list difference) }
{
    if let Some(difference) = difference {
        differences.push(difference)?;
    }
    Ok(())
}

// Where the row ends that the walk has, or another address that comes before.
fn row_end(walk: &RowWalk<'_>, limit: u64) -> u64
    ensures limited { result ≤ limit }
    ensures row { MatchOption (end_of walk.now) (Unit {0}) (λ end. result ≤ end) }
    ensures ahead { (pc : ℕ) → pc < limit → IsBefore pc (end_of walk.now) → pc < result }
{
    match walk.end() {
        Some(end) => end.min(limit),
        None => limit,
    }
}

// How the row that the walk has from `pc` to before `next` differs from a claim, in whose range it
// holds, if it does.
fn difference_between(
    claim: &ClaimedFacts,
    index: usize,
    pc: u64,
    next: u64,
    walk: &RowWalk<'_>,
) -> Option<Difference>
    ensures { (bases : Relative) (fde : Description) → HasRowAt bases fde walk.now pc → pc < next →
        MatchOption (end_of walk.now) (Unit {0}) (λ end. next ≤ end) →
        AreDifferences bases fde index (claim_of claim.now) pc next (option_to_list result) }
{
    if next <= claim.from {
        return None;
    }
    let mismatch = mismatch_at(walk, claim)?;
    Some(Difference {
        claim: index,
        address: pc.max(claim.from),
        mismatch,
    })
}
