// Claims of functions that were read.
ghost use Rattle.std.specs.Prelude.{◌≡◌, ◌∷◌, ◌++◌, [], OnOk};
ghost use Rattle.table_check.specs.Claiming.{with_last};
ghost use Rattle.claim_checks.specs.Adding.{with_bodies, with_sites, with_steps};
ghost use Rattle.claim_checks.specs.Views.{function_of};

use crate::functions::ReadFunction;
use std::alloc::AllocError;
use table_check::{AddressRange, ClaimedSite, ClaimedStep, Claims};

/// Adds steps to the last claim.
fn add_steps(claims: &mut Claims, steps: &[ClaimedStep]) -> Result<(), AllocError>
    ensures { OnOk result (claims.new ≡ with_last (with_steps steps.now) claims.old) }
{
    for step in steps {
        claims.step(step.end, step.step)?;
    }
    Ok(())
}

/// Adds ranges to the body of the last claim.
fn add_bodies(claims: &mut Claims, bodies: &[AddressRange]) -> Result<(), AllocError>
    ensures { OnOk result (claims.new ≡ with_last (with_bodies bodies.now) claims.old) }
{
    for body in bodies {
        claims.body(body.from, body.to)?;
    }
    Ok(())
}

/// Adds call sites to the language table of the last claim.
fn add_sites(claims: &mut Claims, sites: &[ClaimedSite]) -> Result<(), AllocError>
    ensures { OnOk result (claims.new ≡ with_last (with_sites sites.now) claims.old) }
{
    for site in sites {
        claims.site(site.range.from, site.range.to, site.action)?;
    }
    Ok(())
}

/// Claims a function.
pub(crate) fn add_function(claims: &mut Claims, function: &ReadFunction) -> Result<(), AllocError>
    ensures { OnOk result (claims.new ≡ claims.old ++ function_of function.now ∷ []) }
{
    claims.push(function.start, function.end, function.is_outermost)?;
    add_steps(claims, &function.steps)?;
    add_bodies(claims, &function.bodies)?;
    if let Some(sites) = &function.sites {
        claims.table()?;
        add_sites(claims, sites)?;
    }
    Ok(())
}
