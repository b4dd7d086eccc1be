// A module and what is claimed of its code.
ghost use Rattle.std.specs.Prelude.{◌≡◌, ◌⊎◌, Some, None, IfErr, IfOk};
ghost use Rattle.serde_json.specs.View.{view};
ghost use Rattle.fact_checks.specs.declared.auditing.AuditError.{AuditError as Refusal};
ghost use Rattle.fact_claims.specs.Code.{AreDifferencesIn, GivesCode, code_in, code_of, one_frame};
ghost use Rattle.fact_claims.specs.Code.{refusal_in};

use crate::errors::ClaimsError;
use crate::reading::claims_in;
use fact_checks::{AuditError, ClaimedFacts, Difference, audit};
use fde_finders::FrameInfo;
use serde_json::Value;
use stack_snapshot::{Field, MemorySnapshot, SnapshotError, memory_of, value_in};
use stack_steps::{Module, ModuleTables};
use std::alloc::Global;
use std::marker::Model;

/// Memory with one ELF module in it, where the module's frame table is, and what is claimed of the
/// module's code.
#[derive(Drop)]
pub struct ClaimedCode {
    memory: MemorySnapshot,
    frame: FrameInfo,
    claims: Vec<ClaimedFacts>,
}

impl Model for ClaimedCode {
    ghost use Rattle.fact_claims.specs.Code.{CodeContent};

    ghost Value = { CodeContent };

    ghost view = { λ c. record { memory = c.memory; frame = c.frame; claims = c.claims.items } };
}

impl ClaimedCode {
    /// What is claimed.
    pub fn claims(&self) -> &[ClaimedFacts]
        ensures { result.now ≡ self.now.claims }
    {
        &self.claims
    }

    /// Where the module's tables don't say what is claimed, as `audit` of `fact_checks` finds it.
    ///
    /// # Errors
    ///
    /// Those of that call.
    pub fn audit(&self, alloc: Global) -> Result<Vec<Difference>, AuditError>
        ensures refused { IfErr result (λ error.
            (error ≡ Refusal.NoMemory) ⊎ (refusal_in self.now ≡ Some error)) }
        ensures taken { IfOk result (λ differences. refusal_in self.now ≡ None) }
        ensures audited { IfOk result (λ differences.
            AreDifferencesIn self.now differences.items) }
    {
        let image = self.memory.image(alloc)?;
        audit(alloc, &image, self.frame, &self.claims)
    }
}

/// Where the frame table of the one module is, where that is an ELF module.
fn one_frame(modules: &[Module]) -> Option<FrameInfo>
    ensures { result ≡ one_frame modules.now }
{
    match modules {
        [module] => match module.tables {
            ModuleTables::Elf(frame) => Some(frame),
            _ => None,
        },
        _ => None,
    }
}

/// The module and the claims that a value says, or what is faulty first. The claims are read first, so
/// that the value can be let go with the memory's.
#[tactic(auto, unfolding(crate::specs::Code::code_of))]
fn code_of(alloc: Global, value: Value) -> Result<ClaimedCode, ClaimsError>
    ensures { GivesCode result (code_of (view value)) }
{
    let claims = claims_in(alloc, &value)?;
    let memory = memory_of(alloc, value)?;
    let frame = one_frame(memory.modules()).ok_or(SnapshotError::Bad(Field::Modules))?;
    Ok(ClaimedCode {
        memory,
        frame,
        claims: claims?,
    })
}

/// Reads a module and what is claimed of its code.
///
/// # Errors
///
/// In this order: `Snapshot` with `NotJson` where the bytes are no JSON text, or with `Bad` and the
/// first faulty field of memory and modules; `Claims` where there is no list of claims; `Claim` with
/// the place of the first item that says none. `NoMemory` may come in the place of each.
pub fn read_code(alloc: Global, bytes: &[u8]) -> Result<ClaimedCode, ClaimsError>
    ensures { GivesCode result (code_in bytes.now) }
{
    let value = value_in(alloc, bytes)?;
    code_of(alloc, value)
}
