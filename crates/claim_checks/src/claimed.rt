// A module and the functions that it is claimed to have.
ghost use Rattle.std.specs.Prelude.{◌≡◌, ◌⊎◌, Err, IfOk};
ghost use Rattle.serde_json.specs.View.{view, items_view};
ghost use Rattle.stack_snapshot.specs.Answers.{Gives};
ghost use Rattle.stack_snapshot.specs.Snapshot.{needs};
ghost use Rattle.claim_checks.specs.Claimed.{IsTheVerdictOn, claimed_in, claimed_of, elf_of, one_elf};
ghost use Rattle.claim_checks.specs.Functions.{function_list, functions_of};

use crate::adding::add_function;
use crate::functions::function_in;
use serde_json::Value;
use stack_snapshot::{Field, MemorySnapshot, SnapshotError, memory_of, value_in};
use stack_steps::{Module, ModuleTables};
use std::alloc::{AllocError, Global};
use table_check::{Claims, FrameInfo, Verdict, check};

/// An ELF module: the addresses from `start` to before `end`, and where its frame table is.
#[derive(Clone, Copy)]
pub struct ElfModule {
    pub start: u64,
    pub end: u64,
    pub frame: FrameInfo,
}

/// Memory with one module in it, and the functions that the module is claimed to have.
#[derive(Drop)]
pub struct ClaimedModule {
    pub memory: MemorySnapshot,
    pub elf: ElfModule,
    pub claims: Claims,
}

impl ClaimedModule {
    /// Whether the module describes the functions, and if it doesn't, the first part that fails.
    ///
    /// # Errors
    ///
    /// `AllocError` where memory ran out.
    pub fn check(self, alloc: Global) -> Result<Verdict, AllocError>
        ensures { IfOk result (λ verdict. IsTheVerdictOn self verdict) }
    {
        let ClaimedModule {
            memory,
            elf,
            claims,
        } = self;
        let mut claims = claims;
        let image = memory.image(alloc)?;
        Ok(check(&image, elf.start, elf.end, elf.frame, &mut claims))
    }
}

/// The module, where it is an ELF module.
fn elf_of(listed: &Module) -> Option<ElfModule>
    ensures { result ≡ elf_of listed.now }
{
    match listed.tables {
        ModuleTables::Elf(frame) => Some(ElfModule {
            start: listed.start,
            end: listed.end,
            frame,
        }),
        _ => None,
    }
}

/// The one module, where it is an ELF module.
fn one_elf(modules: &[Module]) -> Option<ElfModule>
    ensures { result ≡ one_elf modules.now }
{
    match modules {
        [listed] => elf_of(listed),
        _ => None,
    }
}

/// Each item a function.
fn function_list(alloc: Global, items: &[Value]) -> Result<Claims, SnapshotError>
    ensures { Gives (λ claims. claims) result
        (needs Field.Functions (function_list (items_view items.now))) }
{
    let mut claims = Claims::new(alloc);
    for item in items {
        add_function(&mut claims, &function_in(alloc, item)?)?;
    }
    Ok(claims)
}

/// The functions that are listed.
#[tactic(auto, unfolding(crate::specs::Functions::functions_of))]
fn functions_of(alloc: Global, value: &Value) -> Result<Claims, SnapshotError>
    ensures { Gives (λ claims. claims) result
        (needs Field.Functions (functions_of (view value.now))) }
{
    match value.get("functions").and_then(Value::as_array) {
        Some(items) => function_list(alloc, items),
        None => Err(SnapshotError::Bad(Field::Functions)),
    }
}

/// The module and the functions that a value says, or its first faulty field. The functions are read
/// first, so that the value can be let go with the memory's.
#[tactic(auto, unfolding(crate::specs::Claimed::claimed_of))]
fn claimed_of(alloc: Global, value: Value) -> Result<ClaimedModule, SnapshotError>
    ensures { Gives (λ claimed. claimed) result (claimed_of (view value)) }
{
    let claims = functions_of(alloc, &value);
    let memory = memory_of(alloc, value)?;
    let elf = one_elf(memory.modules()).ok_or(SnapshotError::Bad(Field::Modules))?;
    Ok(ClaimedModule {
        memory,
        elf,
        claims: claims?,
    })
}

/// Reads the functions that a module is claimed to have.
///
/// # Errors
///
/// In this order: `NotJson` where the bytes are no JSON text, `Bad` with the first faulty field.
/// `NoMemory` may come in the place of each answer.
pub fn read_claims(alloc: Global, bytes: &[u8]) -> Result<ClaimedModule, SnapshotError>
    ensures reads { (result ≡ Err SnapshotError.NoMemory) ⊎ (result ≡ claimed_in bytes.now) }
{
    let value = value_in(alloc, bytes)?;
    claimed_of(alloc, value)
}
