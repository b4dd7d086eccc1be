//! Claims by ascending address.

ghost use Rattle.std.specs.Prelude.{◌≡◌, map};
ghost use Rattle.fact_checks.specs.ClaimViews.{claim_of};
ghost use Rattle.fact_checks.specs.InOrder.{first_out_of_order, is_in_order};

use crate::facts::ClaimedFacts;

/// The first claim whose range is empty or begins before the end of the one before it.
pub(crate) fn first_out_of_order(claims: &[ClaimedFacts]) -> Option<usize>
    ensures { result ≡ first_out_of_order 0 (map claim_of claims.now) }
{
    let mut end = 0;
    for (i, claim) in claims.iter().enumerate() {
        if !is_in_order(claim, end) {
            return Some(i);
        }
        end = claim.to;
    }
    None
}

fn is_in_order(claim: &ClaimedFacts, low: u64) -> bool
    ensures { result ≡ is_in_order low (claim_of claim.now) }
{
    low <= claim.from && claim.from < claim.to
}
