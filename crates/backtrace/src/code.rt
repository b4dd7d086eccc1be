// Code of which no module has a table, and the files that a snapshot names.
ghost use Rattle.std.specs.Prelude.{◌≡◌, ◌⊎◌, ◌&&◌, Err, IfOk, nat_le, nat_lt, option_map};
ghost use Rattle.serde_json.specs.View.{view, items_view};
ghost use Rattle.stack_snapshot.specs.Answers.{content_of, value_of};
ghost use Rattle.stack_snapshot.specs.Origins.{file_name, snapshot_in};
ghost use Rattle.stack_snapshot.specs.Sampled.{sampled_in};
ghost use Rattle.backtrace.specs.Code.{code_at, code_list, code_of, path_of, places_by, places_of};
ghost use Rattle.backtrace.specs.Code.{range_of};

use serde_json::Value;
use stack_snapshot::{
    Origins, SampledSnapshot, Snapshot, SnapshotError, file_name, origins_of, sampled_of,
    snapshot_of, value_in, word_at,
};
use std::alloc::{AllocError, Global};
use std::marker::Model;

/// A range of addresses, and the file that is mapped there, if one is.
#[derive(Drop)]
pub struct CodeRange {
    start: u64,
    end: u64,
    path: String,
}

impl Model for CodeRange {
    ghost use Rattle.std.specs.Prelude.{string_bytes};
    ghost use Rattle.backtrace.specs.Code.{CodeValue};

    ghost Value = { CodeValue };

    ghost view = { λ c. record
        { start = c.start; end = c.end; path = string_bytes c.path } };
}

impl CodeRange {
    /// The name of the file, without its folders; empty where there is no file.
    pub fn name(&self) -> &[u8]
        ensures { result.now ≡ file_name self.now.path }
    {
        file_name(self.path.as_bytes())
    }

    /// Whether an address lies in the range.
    fn holds(&self, address: u64) -> bool
        ensures { result ≡ (nat_le self.now.start address && nat_lt address self.now.end) }
    {
        self.start <= address && address < self.end
    }
}

/// The code without tables that a snapshot names, in its order.
#[derive(Drop)]
pub struct CodeRanges {
    ranges: Vec<CodeRange>,
}

impl Model for CodeRanges {
    ghost use Rattle.std.specs.Prelude.{List};
    ghost use Rattle.backtrace.specs.Code.{CodeValue};

    ghost Value = { List CodeValue };

    ghost view = { λ cs. cs.ranges.items };
}

impl CodeRanges {
    /// The first range that holds an address.
    pub fn at(&self, address: u64) -> Option<&CodeRange>
        ensures { option_map (λ c. c.now) result ≡ code_at self.now address }
    {
        for range in &self.ranges {
            if range.holds(address) {
                return Some(range);
            }
        }
        None
    }
}

/// The path that an item names, empty where it names none.
fn path_of(value: &Value) -> &str
    ensures { result.now ≡ path_of (view value.now) }
{
    match value.get("path").and_then(Value::as_str) {
        Some(path) => path,
        None => "",
    }
}

/// The range that an item says.
fn range_of(alloc: Global, value: &Value) -> Result<Option<CodeRange>, AllocError>
    ensures { IfOk result (λ range. range ≡ range_of (view value.now)) }
{
    let Some(start) = word_at(value, "start") else {
        return Ok(None);
    };
    let Some(end) = word_at(value, "end") else {
        return Ok(None);
    };
    Ok(Some(CodeRange {
        start,
        end,
        path: String::from_str(alloc, path_of(value))?,
    }))
}

/// The ranges of the items that say one.
fn code_list(alloc: Global, items: &[Value]) -> Result<Vec<CodeRange>, AllocError>
    ensures { IfOk result (λ ranges. ranges.items ≡ code_list (items_view items.now)) }
{
    let mut ranges = Vec::new(alloc);
    for item in items {
        if let Some(range) = range_of(alloc, item)? {
            ranges.push(range)?;
        }
    }
    Ok(ranges)
}

/// The code that a value names.
#[tactic(auto, unfolding(crate::specs::Code::code_of))]
fn code_of(alloc: Global, value: &Value) -> Result<CodeRanges, AllocError>
    ensures { IfOk result (λ code. code ≡ code_of (view value.now)) }
{
    let ranges = match value.get("code").and_then(Value::as_array) {
        Some(items) => code_list(alloc, items)?,
        None => Vec::new(alloc),
    };
    Ok(CodeRanges { ranges })
}

/// What a snapshot names: the files of its modules, and the code without tables.
#[derive(Drop)]
pub struct Places {
    /// The files of its modules.
    pub origins: Origins,
    /// The code without tables.
    pub code: CodeRanges,
}

impl Model for Places {
    ghost use Rattle.backtrace.specs.Code.{PlacesValue};

    ghost Value = { PlacesValue };

    ghost view = { λ p. record { origins = p.origins; code = p.code } };
}

/// What a value names.
fn places_of(alloc: Global, value: &Value) -> Result<Places, AllocError>
    ensures { IfOk result (λ places. places ≡ places_of (view value.now)) }
{
    Ok(Places {
        origins: origins_of(alloc, value)?,
        code: code_of(alloc, value)?,
    })
}

/// Reads a snapshot, and what it names.
///
/// # Errors
///
/// As of `read_snapshot`.
pub fn read_placed_snapshot(
    alloc: Global,
    bytes: &[u8],
) -> Result<(Snapshot, Places), SnapshotError>
    ensures reads { (result ≡ Err SnapshotError.NoMemory) ⊎
        (snapshot_in result ≡ content_of bytes.now) }
    ensures places { IfOk result (λ both. both.1 ≡ places_by (value_of bytes.now)) }
{
    let value = value_in(alloc, bytes)?;
    let places = places_of(alloc, &value);
    let snapshot = snapshot_of(alloc, value)?;
    Ok((snapshot, places?))
}

/// Reads samples, and what they name.
///
/// # Errors
///
/// As of `read_sampled_snapshot`.
pub fn read_placed_samples(
    alloc: Global,
    bytes: &[u8],
) -> Result<(SampledSnapshot, Places), SnapshotError>
    ensures reads { (result ≡ Err SnapshotError.NoMemory) ⊎
        (snapshot_in result ≡ sampled_in bytes.now) }
    ensures places { IfOk result (λ both. both.1 ≡ places_by (value_of bytes.now)) }
{
    let value = value_in(alloc, bytes)?;
    let places = places_of(alloc, &value);
    let samples = sampled_of(alloc, value)?;
    Ok((samples, places?))
}
