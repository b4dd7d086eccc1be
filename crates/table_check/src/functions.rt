//! What makes a claim one of a function: its prologue, its body, and its call sites.

ghost use Rattle.std.specs.Prelude.{◌≡◌, ◌≢◌, ◌+◌, [], IfSome, map};
ghost use Rattle.std.specs.Bool.{Decides};
ghost use Rattle.unwind_definitions.specs.Prologue.{SystemV};
ghost use Rattle.unwind_definitions.specs.Function.{AreWithin, AreSitesOf, Function, IsFunction};
ghost use Rattle.unwind_definitions.specs.Function.{MayAsk, last_end};
ghost use Rattle.unwinding_frames.specs.LanguageViews.{action_of};
ghost use Rattle.table_check.specs.First.{TellsFirst};
ghost use Rattle.table_check.specs.Functions.{HasBodies, MayBeOutermost};
ghost use Rattle.table_check.specs.ClaimViews.{function_of, prologue_step_of, range_of, site_of};

use crate::claims::{AddressRange, Claim, ClaimedSite, ClaimedStep};
use crate::prologue::is_prologue;
use unwinding_frames::EhAction;

/// The first claim that isn't one of a function of an ELF module.
pub(crate) fn first_no_function(claims: &[Claim]) -> Option<usize>
    ensures { TellsFirst (IsFunction SystemV) (map function_of claims.now) result }
{
    for (i, claim) in claims.iter().enumerate() {
        if !is_function(claim) {
            return Some(i);
        }
    }
    None
}

// Whether a claim is one of a function of an ELF module.
fn is_function(claim: &Claim) -> bool
    ensures { Decides result (IsFunction SystemV (function_of claim.now)) }
{
    is_prologue(&claim.steps) && has_bodies(claim) && has_sites(claim) && may_be_outermost(claim)
}

// Whether there is a body range, and all begin where the prologue has ended.
fn has_bodies(claim: &Claim) -> bool
    ensures { Decides result (HasBodies (function_of claim.now)) }
{
    !claim.bodies.is_empty()
        && are_after(
            claim.start,
            last_end(&claim.steps),
            claim.end,
            &claim.bodies,
        )
}

// Whether ranges lie so far after the start of a function, and before its end.
fn are_after(start: u64, offset: u64, end: u64, ranges: &[AddressRange]) -> bool
    requires { ranges.now ≢ [] }
    ensures { Decides result (AreWithin (start + offset) end (map range_of ranges.now)) }
{
    match start.checked_add(offset) {
        Some(first) => are_within(first, end, ranges),
        None => false,
    }
}

// Whether call sites lie in the function and ascend, and ask what they may.
fn has_sites(claim: &Claim) -> bool
    ensures { Decides result
        (IfSome (function_of claim.now).sites (AreSitesOf (function_of claim.now))) }
{
    !claim.has_table || are_sites_of(claim, &claim.sites)
}

// Whether a claim isn't outermost, or has no steps and no language table.
fn may_be_outermost(claim: &Claim) -> bool
    ensures { Decides result (MayBeOutermost (function_of claim.now)) }
{
    !claim.is_outermost || (claim.steps.is_empty() && !claim.has_table)
}

// The end of the last step, 0 without one.
fn last_end(steps: &[ClaimedStep]) -> u64
    ensures { result ≡ last_end (map prologue_step_of steps.now) }
{
    match steps.last() {
        Some(step) => step.end,
        None => 0,
    }
}

// Whether ranges aren't empty, ascend, share no address, and lie inside others.
fn are_within(low: u64, high: u64, ranges: &[AddressRange]) -> bool
    ensures { Decides result (AreWithin low high (map range_of ranges.now)) }
{
    let mut from = low;
    for range in ranges {
        if range.from < from || range.to <= range.from || high < range.to {
            return false;
        }
        from = range.to;
    }
    true
}

// The same of the ranges of call sites, which may ask what they do.
fn are_sites_of(claim: &Claim, sites: &[ClaimedSite]) -> bool
    ensures { Decides result (AreSitesOf (function_of claim.now) (map site_of sites.now)) }
{
    let mut from = claim.start;
    for site in sites {
        let range = site.range;
        if range.from < from || range.to <= range.from || claim.end < range.to {
            return false;
        }
        if !may_ask(claim.start, claim.end, site.action) {
            return false;
        }
        from = range.to;
    }
    true
}

// Whether a site may ask for an action: not to end the program, and pads lie in the function.
fn may_ask(start: u64, end: u64, action: EhAction) -> bool
    ensures { (f : Function) → f.start ≡ start → f.end ≡ end →
        Decides result (MayAsk f (action_of action)) }
{
    match action {
        EhAction::None => true,
        EhAction::Cleanup(pad) | EhAction::Catch(pad) | EhAction::Filter(pad) => {
            start < pad && pad < end
        }
        EhAction::Terminate => false,
    }
}
