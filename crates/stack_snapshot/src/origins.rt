// Where the modules of a snapshot come from.
ghost use Rattle.std.specs.Prelude.{◌≡◌, ◌&&◌, IfOk, nat_le, nat_lt, option_map};
ghost use Rattle.serde_json.specs.View.{view, items_view};
ghost use Rattle.stack_snapshot.specs.Origins.{origin_of, origin_list, origins_of, origin_at};
ghost use Rattle.stack_snapshot.specs.Origins.{file_name};

use crate::fields::word_at;
use serde_json::Value;
use std::alloc::{AllocError, Global};
use std::marker::Model;

/// A module's file, and by how much the module was moved when it was loaded.
#[derive(Drop)]
pub struct Origin {
    start: u64,
    end: u64,
    path: String,
    bias: u64,
}

impl Model for Origin {
    ghost use Rattle.std.specs.Prelude.{string_bytes};
    ghost use Rattle.stack_snapshot.specs.Origins.{OriginValue};

    ghost Value = { OriginValue };

    ghost view = { λ o. record
        { start = o.start; end = o.end; path = string_bytes o.path; bias = o.bias } };
}

impl Origin {
    /// The name of the file, without its folders.
    pub fn name(&self) -> &[u8]
        ensures { result.now ≡ file_name self.now.path }
    {
        file_name(self.path.as_bytes())
    }

    /// The path of the file.
    pub fn path(&self) -> &[u8]
        ensures { result.now ≡ self.now.path }
    {
        self.path.as_bytes()
    }

    /// What was added to the addresses of the file.
    pub fn bias(&self) -> u64
        ensures { result ≡ self.now.bias }
    {
        self.bias
    }

    /// Whether an address lies in the module.
    fn holds(&self, address: u64) -> bool
        ensures { result ≡ (nat_le self.now.start address && nat_lt address self.now.end) }
    {
        self.start <= address && address < self.end
    }
}

/// The name of the file at a path: what is after the last slash, which is sought from the end, since
/// most names are short.
pub fn file_name(path: &[u8]) -> &[u8]
    ensures { result.now ≡ file_name path.now }
{
    for place in (0..path.len()).rev() {
        if path[place] == b'/' {
            return &path[place + 1..];
        }
    }
    path
}

/// The files of the modules that name theirs, in the snapshot's order.
#[derive(Drop)]
pub struct Origins {
    origins: Vec<Origin>,
}

impl Model for Origins {
    ghost use Rattle.std.specs.Prelude.{List};
    ghost use Rattle.stack_snapshot.specs.Origins.{OriginValue};

    ghost Value = { List OriginValue };

    ghost view = { λ os. os.origins.items };
}

impl Origins {
    /// The file of the module that holds an address.
    pub fn at(&self, address: u64) -> Option<&Origin>
        ensures { option_map (λ o. o.now) result ≡ origin_at self.now address }
    {
        for origin in &self.origins {
            if origin.holds(address) {
                return Some(origin);
            }
        }
        None
    }
}

/// What a module says of its file.
fn origin_of(alloc: Global, value: &Value) -> Result<Option<Origin>, AllocError>
    ensures { IfOk result (λ origin. origin ≡ origin_of (view value.now)) }
{
    let Some(start) = word_at(value, "start") else {
        return Ok(None);
    };
    let Some(end) = word_at(value, "end") else {
        return Ok(None);
    };
    let Some(bias) = word_at(value, "bias") else {
        return Ok(None);
    };
    let Some(path) = value.get("path").and_then(Value::as_str) else {
        return Ok(None);
    };
    Ok(Some(Origin {
        start,
        end,
        path: String::from_str(alloc, path)?,
        bias,
    }))
}

/// What each item says of its file, where it says so.
fn origin_list(alloc: Global, items: &[Value]) -> Result<Vec<Origin>, AllocError>
    ensures { IfOk result (λ origins. origins.items ≡ origin_list (items_view items.now)) }
{
    let mut origins = Vec::new(alloc);
    for item in items {
        if let Some(origin) = origin_of(alloc, item)? {
            origins.push(origin)?;
        }
    }
    Ok(origins)
}

/// The files of the modules that a value names.
///
/// # Errors
///
/// `AllocError` where memory ran out.
#[tactic(auto, unfolding(crate::specs::Origins::origins_of))]
pub fn origins_of(alloc: Global, value: &Value) -> Result<Origins, AllocError>
    ensures { IfOk result (λ origins. origins ≡ origins_of (view value.now)) }
{
    let origins = match value.get("modules").and_then(Value::as_array) {
        Some(items) => origin_list(alloc, items)?,
        None => Vec::new(alloc),
    };
    Ok(Origins { origins })
}
