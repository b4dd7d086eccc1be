//! Reads a snapshot of a stopped thread from JSON: regions of memory, the modules that lie in them, the
//! registers from which the stack is unwound, and the delivery that is asked for. docs/FORMATS.md has
//! the format. `SnapshotParts` makes one without JSON.
//!
//! The report of the walk of a snapshot:
//!
//! ```rust
//! use stack_deliver::walk;
//! use stack_report::walk_report_of;
//! use stack_snapshot::read_snapshot;
//! use std::{fs, str};
//!
//! let text = fs::read(rt, "pushed_rbx.json")?;
//! let snapshot = read_snapshot(rt.alloc(), &text)?;
//! let space = snapshot.space(rt.alloc())?;
//! let start = snapshot.start();
//! let visited = walk(
//!     rt.alloc(),
//!     &space,
//!     &start,
//!     snapshot.interrupted(),
//!     snapshot.limit(),
//! )?;
//! let report = walk_report_of(rt.alloc(), &visited)?;
//! print!(rt; "{}", str::from_utf8(report.bytes())?)?;
//! ```
#![tactic(auto)]

mod cores;
mod errors;
mod fields;
mod memory;
mod origins;
mod parts;
mod ranges;
mod reading;
mod sampled;
mod snapshot;
mod thrown;

pub use cores::{CoreSnapshot, CoreSnapshotError, read_core_snapshot};
pub use errors::{Field, SnapshotError};
pub use fields::{as_word, word_at};
pub use memory::{MemorySnapshot, memory_of};
pub use origins::{Origin, Origins, file_name, origins_of};
pub use parts::SnapshotParts;
pub use reading::{read_named_snapshot, read_snapshot, snapshot_of, value_in};
pub use sampled::{SampledSnapshot, read_sampled_snapshot, sampled_of};
pub use snapshot::{Region, Snapshot};
pub use thrown::{ThrownSnapshot, read_thrown_snapshot};
