//! Where claims lie in a module.

ghost use Rattle.std.specs.Prelude.{MatchOption, map};
ghost use Rattle.unwind_definitions.specs.Function.{AreWithin};
ghost use Rattle.table_check.specs.ClaimViews.{function_of};
ghost use Rattle.table_check.specs.Ranges.{LeavesFirst, extents_of};

use crate::claims::Claim;

/// The first claim that is empty, doesn't lie from `start` to before `end`, or begins below the end
/// of the claim before.
pub(crate) fn first_out_of_place(claims: &[Claim], start: u64, end: u64) -> Option<usize>
    ensures { MatchOption result
        (AreWithin start end (extents_of (map function_of claims.now)))
        (λ i. LeavesFirst start end (extents_of (map function_of claims.now)) i) }
{
    let mut from = start;
    for (i, claim) in claims.iter().enumerate() {
        if claim.start < from || claim.end <= claim.start || end < claim.end {
            return Some(i);
        }
        from = claim.end;
    }
    None
}
