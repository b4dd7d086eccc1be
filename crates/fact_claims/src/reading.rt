// Claims from JSON.
ghost use Rattle.std.specs.Prelude.{◌≡◌, IfOk};
ghost use Rattle.memory_image.specs.Results.{result_map};
ghost use Rattle.serde_json.specs.View.{view, items_view};
ghost use Rattle.fact_claims.specs.Claims.{claim_in, claims_from, claims_in, is_kept_at, is_named};
ghost use Rattle.fact_claims.specs.Claims.{keeps, optional_word_at, outermost_in, register_at};
ghost use Rattle.fact_claims.specs.Claims.{registers_in, slot_at};

use crate::errors::ClaimsError;
use fact_checks::{ClaimedFacts, KnownRegister, KnownRegisters};
use serde_json::Value;
use stack_snapshot::{as_word, word_at};
use std::alloc::{AllocError, Global};

/// The word at a key, where there is one.
fn optional_word_at(value: &Value, key: &str) -> Option<Option<u64>>
    ensures { result ≡ optional_word_at key.now (view value.now) }
{
    match value.get(key) {
        Some(found) => Some(Some(as_word(found)?)),
        None => Some(None),
    }
}

/// How far below the CFA a register is saved, where it is.
fn slot_at(value: &Value, name: &str) -> Option<Option<u64>>
    ensures { result ≡ slot_at name.now (view value.now) }
{
    match value.get("saved") {
        Some(saved) => optional_word_at(saved, name),
        None => Some(None),
    }
}

/// Whether a value is a name.
fn is_named(value: &Value, name: &str) -> bool
    ensures { result ≡ is_named name.now (view value.now) }
{
    match value.as_str() {
        Some(text) => text == name,
        None => false,
    }
}

/// Whether one of the items is a name.
fn keeps(items: &[Value], name: &str) -> bool
    ensures { result ≡ keeps name.now (items_view items.now) }
{
    for item in items {
        if is_named(item, name) {
            return true;
        }
    }
    false
}

/// Whether a register is kept.
fn is_kept_at(value: &Value, name: &str) -> Option<bool>
    ensures { result ≡ is_kept_at name.now (view value.now) }
{
    match value.get("kept") {
        Some(kept) => Some(keeps(kept.as_array()?, name)),
        None => Some(false),
    }
}

/// What is known of a register.
#[tactic(auto, unfolding(crate::specs::Claims::register_at))]
fn register_at(value: &Value, name: &str) -> Option<KnownRegister>
    ensures { result ≡ register_at name.now (view value.now) }
{
    let slot = slot_at(value, name)?;
    let is_kept = is_kept_at(value, name)?;
    Some(KnownRegister { slot, is_kept })
}

/// What is known of the callee-saved registers.
#[tactic(auto, unfolding(crate::specs::Claims::registers_in))]
fn registers_in(value: &Value) -> Option<KnownRegisters>
    ensures { result ≡ registers_in (view value.now) }
{
    let rbx = register_at(value, "rbx")?;
    let rbp = register_at(value, "rbp")?;
    let r12 = register_at(value, "r12")?;
    let r13 = register_at(value, "r13")?;
    let r14 = register_at(value, "r14")?;
    let r15 = register_at(value, "r15")?;
    Some(KnownRegisters {
        rbx,
        rbp,
        r12,
        r13,
        r14,
        r15,
    })
}

/// Whether the frame is the outermost one, false where that is missing.
#[tactic(auto, unfolding(crate::specs::Claims::outermost_in))]
fn outermost_in(value: &Value) -> Option<bool>
    ensures { result ≡ outermost_in (view value.now) }
{
    let Some(found) = value.get("outermost") else {
        return Some(false);
    };
    found.as_bool()
}

/// The claim that an object says.
#[tactic(auto, unfolding(crate::specs::Claims::claim_in))]
fn claim_in(value: &Value) -> Option<ClaimedFacts>
    ensures { result ≡ claim_in (view value.now) }
{
    let from = word_at(value, "from")?;
    let to = word_at(value, "to")?;
    let rsp = optional_word_at(value, "rsp")?;
    let rbp = optional_word_at(value, "rbp")?;
    let registers = registers_in(value)?;
    let is_outermost = outermost_in(value)?;
    Some(ClaimedFacts {
        from,
        to,
        rsp,
        rbp,
        registers,
        is_outermost,
    })
}

/// Each item a claim, or the place of the first one that says none.
fn claim_list(
    alloc: Global,
    items: &[Value],
) -> Result<Result<Vec<ClaimedFacts>, ClaimsError>, AllocError>
    ensures { IfOk result (λ claims.
        result_map (λ list. list.items) claims ≡ claims_from 0 (items_view items.now)) }
{
    let mut claims = Vec::with_capacity(alloc, items.len())?;
    for (i, item) in items.iter().enumerate() {
        let Some(claim) = claim_in(item) else {
            return Ok(Err(ClaimsError::Claim(i)));
        };
        claims.push(claim)?;
    }
    Ok(Ok(claims))
}

/// The claims that are listed, or why there are none.
#[tactic(auto, unfolding(crate::specs::Claims::claims_in))]
pub(crate) fn claims_in(
    alloc: Global,
    value: &Value,
) -> Result<Result<Vec<ClaimedFacts>, ClaimsError>, AllocError>
    ensures { IfOk result (λ claims.
        result_map (λ list. list.items) claims ≡ claims_in (view value.now)) }
{
    match value.get("claims").and_then(Value::as_array) {
        Some(items) => claim_list(alloc, items),
        None => Ok(Err(ClaimsError::Claims)),
    }
}
