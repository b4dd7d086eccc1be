// From JSON to a snapshot.
ghost use Rattle.std.specs.Prelude.{◌≡◌, ◌≢◌, ◌<◌, length, IfOk, Err, ◌⊎◌, is_some, codes};
ghost use Rattle.std.specs.Prelude.{option_and_then, option_map};
ghost use Rattle.serde_json.specs.Find.{as_array, get};
ghost use Rattle.serde_json.specs.View.{view, items_view};
ghost use Rattle.stack_snapshot.specs.Snapshot.{needs, region_of, region_list};
ghost use Rattle.stack_snapshot.specs.Snapshot.{frame_kind_of, frame_info_of, elf_of, module_of};
ghost use Rattle.stack_snapshot.specs.Snapshot.{module_list, registers_in};
ghost use Rattle.stack_snapshot.specs.Snapshot.{register_names, start_of, resume_in, resume_of};
ghost use Rattle.stack_snapshot.specs.Snapshot.{resume_list, resumes_of, limit_of, interrupted_of};
ghost use Rattle.stack_snapshot.specs.Snapshot.{whole_numbers, snapshot_of, word_if_given, if_u32};
ghost use Rattle.stack_snapshot.specs.Snapshot.{u32_at, end_from, macho_tables_of, pe_tables_of};
ghost use Rattle.stack_snapshot.specs.Snapshot.{module_with_size};
ghost use Rattle.stack_deliver.specs.Resumes.{resume_table};
ghost use Rattle.stack_snapshot.specs.Fields.{bytes_at};
ghost use Rattle.stack_snapshot.specs.Answers.{Gives, ReadsValue, content_of, value_of};
ghost use Rattle.stack_snapshot.specs.Origins.{origins_by, snapshot_in};
ghost use Rattle.stack_snapshot.specs.Owned.{list_view, span_of, spans_of};

use crate::errors::{Field, SnapshotError};
use crate::fields::{as_word, has_float, number_at, word_at, word_or_zero_at};
use crate::origins::{Origins, origins_of};
use crate::snapshot::{Region, Snapshot, taken_modules, taken_regions};
use hex::FromHexError;
use serde_json::Value;
use stack_deliver::{
    Context, FrameInfo, FrameInfoKind, MachoTables, Module, ModuleTables, PeTables, Resumes,
};
use std::alloc::Global;

/// The bytes at a key, or the fault of the field.
pub(crate) fn bytes_at(
    alloc: Global,
    value: &Value,
    key: &str,
    field: Field,
) -> Result<Vec<u8>, SnapshotError>
    ensures { Gives (λ bytes. bytes.items) result
        (needs field (bytes_at key.now (view value.now))) }
{
    let text = value
        .get(key)
        .and_then(Value::as_str)
        .ok_or(SnapshotError::Bad(field))?;
    match hex::decode(alloc, text) {
        Ok(bytes) => Ok(bytes),
        Err(FromHexError::OutOfMemory) => Err(SnapshotError::NoMemory),
        Err(_) => Err(SnapshotError::Bad(field)),
    }
}

/// The region that an object says.
fn region_of(alloc: Global, value: &Value) -> Result<Region, SnapshotError>
    ensures { Gives span_of result (needs Field.Regions (region_of (view value.now))) }
{
    let bytes = bytes_at(alloc, value, "bytes", Field::Regions)?;
    let address = word_at(value, "address").ok_or(SnapshotError::Bad(Field::Regions))?;
    Ok(Region { address, bytes })
}

/// Each item a region. An item is let go once it is read.
fn region_list(alloc: Global, items: Vec<Value>) -> Result<Vec<Region>, SnapshotError>
    ensures { Gives (λ regions. spans_of regions.items) result
        (needs Field.Regions (region_list (items_view items.items))) }
{
    let mut regions = Vec::with_capacity(alloc, items.len())?;
    for item in items {
        regions.push(region_of(alloc, &item)?)?;
    }
    Ok(regions)
}

/// The regions that a list says, where there is one.
pub(crate) fn listed_regions(
    alloc: Global,
    items: Option<Vec<Value>>,
) -> Result<Vec<Region>, SnapshotError>
    ensures { Gives (λ regions. spans_of regions.items) result
        (needs Field.Regions (option_and_then region_list (list_view items))) }
{
    match items {
        Some(items) => region_list(alloc, items),
        None => Err(SnapshotError::Bad(Field::Regions)),
    }
}

/// The word at a key, where it is given.
fn word_if_given(value: &Value, key: &str) -> Option<Option<u64>>
    ensures { result ≡ word_if_given (get key.now (view value.now)) }
{
    match value.get(key) {
        None => Some(None),
        Some(word) => Some(Some(as_word(word)?)),
    }
}

/// The address of a header or of a frame table, of which exactly one is named.
fn frame_kind_of(value: &Value) -> Option<FrameInfoKind>
    ensures { result ≡ frame_kind_of (view value.now) }
{
    match (value.get("eh_frame_hdr"), value.get("eh_frame")) {
        (Some(header), None) => Some(FrameInfoKind::EhFrameHdr(as_word(header)?)),
        (None, Some(frame)) => Some(FrameInfoKind::EhFrame(as_word(frame)?)),
        _ => None,
    }
}

/// The frame tables of a module.
fn frame_info_of(value: &Value) -> Option<FrameInfo>
    ensures { result ≡ frame_info_of (view value.now) }
{
    let text_base = word_if_given(value, "text_base")?;
    let kind = frame_kind_of(value)?;
    Some(FrameInfo { text_base, kind })
}

/// The addresses of an ELF module and its frame tables.
fn elf_of(value: &Value) -> Option<Module>
    ensures { result ≡ elf_of (view value.now) }
{
    let start = word_at(value, "start")?;
    let end = word_at(value, "end")?;
    let frame = frame_info_of(value)?;
    Some(Module {
        start,
        end,
        tables: ModuleTables::Elf(frame),
    })
}

/// The word, where it is below 2^32.
fn if_u32(word: u64) -> Option<u32>
    ensures { result ≡ if_u32 word }
{
    if word < 0x1_0000_0000 {
        Some(word as u32)
    } else {
        None
    }
}

/// The word below 2^32 at a key.
fn u32_at(value: &Value, key: &str) -> Option<u32>
    ensures { result ≡ u32_at key.now (view value.now) }
{
    if_u32(word_at(value, key)?)
}

/// The address after the last of a module that begins at `base`.
fn end_from(base: u64, value: &Value) -> Option<u64>
    ensures { result ≡ end_from base (view value.now) }
{
    base.checked_add(u64::from(u32_at(value, "size")?))
}

/// Where the tables of a Mach-O module lie.
fn macho_tables_of(value: &Value) -> Option<ModuleTables>
    ensures { result ≡ macho_tables_of (view value.now) }
{
    let unwind_info = word_at(value, "unwind_info")?;
    let frames = word_if_given(value, "eh_frame")?;
    Some(ModuleTables::Macho(MachoTables {
        unwind_info,
        frames,
    }))
}

/// Where the function table of a PE module lies.
fn pe_tables_of(value: &Value) -> Option<ModuleTables>
    ensures { result ≡ pe_tables_of (view value.now) }
{
    let table_rva = u32_at(value, "pdata_rva")?;
    let table_size = u32_at(value, "pdata_size")?;
    Some(ModuleTables::Pe(PeTables {
        table_rva,
        table_size,
    }))
}

/// A Mach-O module, by its base, its size and its tables.
fn macho_of(value: &Value) -> Option<Module>
    ensures { result ≡ module_with_size macho_tables_of (view value.now) }
{
    let start = word_at(value, "base")?;
    let end = end_from(start, value)?;
    let tables = macho_tables_of(value)?;
    Some(Module { start, end, tables })
}

/// A PE module, in the same way.
fn pe_of(value: &Value) -> Option<Module>
    ensures { result ≡ module_with_size pe_tables_of (view value.now) }
{
    let start = word_at(value, "base")?;
    let end = end_from(start, value)?;
    let tables = pe_tables_of(value)?;
    Some(Module { start, end, tables })
}

/// The module that an object says.
fn module_of(value: &Value) -> Option<Module>
    ensures { result ≡ module_of (view value.now) }
{
    match value.get("kind")?.as_str()? {
        "elf" => elf_of(value),
        "macho" => macho_of(value),
        "pe" => pe_of(value),
        _ => None,
    }
}

/// Each item a module. An item is let go once it is read.
fn module_list(alloc: Global, items: Vec<Value>) -> Result<Vec<Module>, SnapshotError>
    ensures { Gives (λ modules. modules.items) result
        (needs Field.Modules (module_list (items_view items.items))) }
{
    let mut modules = Vec::with_capacity(alloc, items.len())?;
    for item in items {
        modules.push(module_of(&item).ok_or(SnapshotError::Bad(Field::Modules))?)?;
    }
    Ok(modules)
}

/// The modules that a list says, where there is one.
pub(crate) fn listed_modules(
    alloc: Global,
    items: Option<Vec<Value>>,
) -> Result<Vec<Module>, SnapshotError>
    ensures { Gives (λ modules. modules.items) result
        (needs Field.Modules (option_and_then module_list (list_view items))) }
{
    match items {
        Some(items) => module_list(alloc, items),
        None => Err(SnapshotError::Bad(Field::Modules)),
    }
}

/// The general registers by their columns, 0 where a word is missing.
fn registers_of(start: &Value) -> Option<[u64; 16]>
    ensures { result ≡ registers_in register_names (view start.now) }
{
    Some([
        word_or_zero_at(start, "rax")?,
        word_or_zero_at(start, "rdx")?,
        word_or_zero_at(start, "rcx")?,
        word_or_zero_at(start, "rbx")?,
        word_or_zero_at(start, "rsi")?,
        word_or_zero_at(start, "rdi")?,
        word_or_zero_at(start, "rbp")?,
        word_or_zero_at(start, "rsp")?,
        word_or_zero_at(start, "r8")?,
        word_or_zero_at(start, "r9")?,
        word_or_zero_at(start, "r10")?,
        word_or_zero_at(start, "r11")?,
        word_or_zero_at(start, "r12")?,
        word_or_zero_at(start, "r13")?,
        word_or_zero_at(start, "r14")?,
        word_or_zero_at(start, "r15")?,
    ])
}

/// The registers at the start.
#[tactic(auto, unfolding(crate::specs::Snapshot::start_of))]
pub(crate) fn start_of(value: &Value) -> Option<Context>
    ensures { result ≡ start_of (view value.now) }
{
    let start = value.get("start")?;
    let ra = word_at(start, "rip")?;
    word_at(start, "rsp")?;
    let registers = registers_of(start)?;
    Some(Context {
        registers,
        ra,
        mcxsr: 0,
        fcw: 0,
    })
}

/// An array of exactly two words.
fn resume_of(value: &Value) -> Option<(u64, u64)>
    ensures { result ≡ resume_of (view value.now) }
{
    resume_in(value.as_array()?)
}

/// Exactly two words.
fn resume_in(items: &[Value]) -> Option<(u64, u64)>
    ensures { result ≡ resume_in (items_view items.now) }
{
    match items {
        [pad, ret] => Some((as_word(pad)?, as_word(ret)?)),
        _ => None,
    }
}

/// Each item a landing pad and its return address.
fn resume_list(alloc: Global, items: &[Value]) -> Result<Resumes, SnapshotError>
    ensures { Gives (λ resumes. resumes) result
        (needs Field.Resumes (option_map resume_table (resume_list (items_view items.now)))) }
{
    let mut resumes = Resumes::new(alloc);
    for item in items {
        let (pad, ret) = resume_of(item).ok_or(SnapshotError::Bad(Field::Resumes))?;
        resumes.add(pad, ret)?;
    }
    Ok(resumes)
}

/// The return addresses by pad, none where the field is missing.
#[tactic(auto, unfolding(crate::specs::Snapshot::resumes_of))]
fn resumes_of(alloc: Global, value: &Value) -> Result<Resumes, SnapshotError>
    ensures { Gives (λ resumes. resumes) result
        (needs Field.Resumes (resumes_of (view value.now))) }
{
    match value.get("resumes") {
        None => Ok(Resumes::new(alloc)),
        Some(found) => match found.as_array() {
            Some(items) => resume_list(alloc, items),
            None => Err(SnapshotError::Bad(Field::Resumes)),
        },
    }
}

/// The most states of a pass.
#[tactic(auto, unfolding(crate::specs::Snapshot::limit_of))]
pub(crate) fn limit_of(value: &Value) -> Option<u32>
    ensures { result ≡ limit_of (view value.now) }
{
    let limit = number_at(value, "limit")?;
    if 1 <= limit && limit <= 1_048_576 {
        Some(limit as u32)
    } else {
        None
    }
}

/// Whether the start stands before its instruction, false where the field is missing.
#[tactic(auto, unfolding(crate::specs::Snapshot::interrupted_of))]
pub(crate) fn interrupted_of(value: &Value) -> Option<bool>
    ensures { result ≡ interrupted_of (view value.now) }
{
    match value.get("interrupted") {
        Some(found) => found.as_bool(),
        None => Some(false),
    }
}

/// Whether the value is an object in which every number is a 64-bit integer.
#[tactic(auto, unfolding(crate::specs::Snapshot::whole_numbers))]
pub(crate) fn is_whole(value: &Value) -> bool
    ensures { result ≡ is_some (whole_numbers (view value.now)) }
{
    !has_float(value) && value.is_object()
}

/// The items of the two long lists, where they are there.
#[derive(Drop)]
pub(crate) struct Lists {
    pub(crate) regions: Option<Vec<Value>>,
    pub(crate) modules: Option<Vec<Value>>,
}

/// The items of an array.
fn items_of(value: Option<Value>) -> Option<Vec<Value>>
    ensures { list_view result ≡ option_and_then as_array (option_map view value) }
{
    match value {
        Some(Value::Array(items)) => Some(items),
        _ => None,
    }
}

/// Takes the long lists out of a value, and lets the rest of it go.
pub(crate) fn lists_of(value: Value) -> Lists
    ensures regions { list_view result.regions ≡
        option_and_then as_array (get (codes "regions") (view value)) }
    ensures modules { list_view result.modules ≡
        option_and_then as_array (get (codes "modules") (view value)) }
{
    match value {
        Value::Object(mut members) => Lists {
            regions: items_of(members.remove("regions")),
            modules: items_of(members.remove("modules")),
        },
        _ => Lists {
            regions: None,
            modules: None,
        },
    }
}

/// The snapshot that a value says, or its first faulty field.
///
/// The value takes several times the memory of what it says. So each field is read, also after a
/// faulty one, and the value let go, before it is tested whether the long lists are taken.
///
/// # Errors
///
/// `Bad` with the first faulty field. `NoMemory` may come in the place of each answer.
#[tactic(auto, unfolding(crate::specs::Snapshot::snapshot_of, crate::specs::Snapshot::regions_of, crate::specs::Snapshot::modules_of))]
pub fn snapshot_of(alloc: Global, value: Value) -> Result<Snapshot, SnapshotError>
    ensures { Gives (λ snapshot. snapshot) result (snapshot_of (view value)) }
{
    if !is_whole(&value) {
        return Err(SnapshotError::Bad(Field::Object));
    }
    let start = start_of(&value);
    let exception = word_or_zero_at(&value, "exception");
    let class = word_or_zero_at(&value, "class");
    let resumes = resumes_of(alloc, &value);
    let limit = limit_of(&value);
    let interrupted = interrupted_of(&value);
    let lists = lists_of(value);
    let regions = listed_regions(alloc, lists.regions)?;
    let modules = listed_modules(alloc, lists.modules);
    Ok(Snapshot {
        regions: taken_regions(alloc, regions)?,
        modules: taken_modules(alloc, modules?)?,
        start: start.ok_or(SnapshotError::Bad(Field::Start))?,
        exception: exception.ok_or(SnapshotError::Bad(Field::Exception))?,
        class: class.ok_or(SnapshotError::Bad(Field::Class))?,
        resumes: resumes?,
        limit: limit.ok_or(SnapshotError::Bad(Field::Limit))?,
        interrupted: interrupted.ok_or(SnapshotError::Bad(Field::Interrupted))?,
    })
}

/// The value of some bytes as a JSON text.
///
/// # Errors
///
/// `NotJson` where the bytes are no JSON text. `NoMemory` may come in the place of each answer.
pub fn value_in(alloc: Global, bytes: &[u8]) -> Result<Value, SnapshotError>
    ensures reads { ReadsValue result bytes.now }
    ensures some { result ≢ Err SnapshotError.NotJson → 0 < length bytes.now }
{
    match Value::from_slice(alloc, bytes) {
        Ok(value) => Ok(value),
        Err(error) => {
            if error.is_memory() {
                return Err(SnapshotError::NoMemory);
            }
            Err(SnapshotError::NotJson)
        }
    }
}

/// Reads a snapshot.
///
/// # Errors
///
/// In this order: `NotJson` where the bytes are no JSON text, `Bad` with the first faulty field
/// where the value is no snapshot. `NoMemory` may come in the place of each answer.
pub fn read_snapshot(alloc: Global, bytes: &[u8]) -> Result<Snapshot, SnapshotError>
    ensures reads { (result ≡ Err SnapshotError.NoMemory) ⊎ (result ≡ content_of bytes.now) }
    ensures memory { result ≡ Err SnapshotError.NoMemory → 0 < length bytes.now }
{
    let value = value_in(alloc, bytes)?;
    snapshot_of(alloc, value)
}

/// Reads a snapshot, and from which files its modules come.
///
/// # Errors
///
/// As [`read_snapshot`].
pub fn read_named_snapshot(
    alloc: Global,
    bytes: &[u8],
) -> Result<(Snapshot, Origins), SnapshotError>
    ensures reads { (result ≡ Err SnapshotError.NoMemory) ⊎
        (snapshot_in result ≡ content_of bytes.now) }
    ensures origins { IfOk result (λ both. both.1 ≡ origins_by (value_of bytes.now)) }
{
    let value = value_in(alloc, bytes)?;
    let origins = origins_of(alloc, &value);
    let snapshot = snapshot_of(alloc, value)?;
    Ok((snapshot, origins?))
}
