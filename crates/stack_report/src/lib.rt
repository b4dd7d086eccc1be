//! Writes what an unwinder did as lines of text: the states of a walk, the states, cleanups, landing and
//! outcome of a delivery, why there is neither, how large a delivery was, or the folded stacks of
//! samples. docs/FORMATS.md has the lines.
//!
//! The report of the walk of a snapshot:
//!
//! ```rust
//! use stack_deliver::walk;
//! use stack_report::walk_report_of;
//! use stack_snapshot::read_snapshot;
//! use std::{fs, str};
//!
//! let text = fs::read(rt, "pushed_rbx.json")?;
//! let snapshot = read_snapshot(rt.alloc(), &text)?;
//! let space = snapshot.space(rt.alloc())?;
//! let start = snapshot.start();
//! let visited = walk(
//!     rt.alloc(),
//!     &space,
//!     &start,
//!     snapshot.interrupted(),
//!     snapshot.limit(),
//! )?;
//! let report = walk_report_of(rt.alloc(), &visited)?;
//! print!(rt; "{}", str::from_utf8(report.bytes())?)?;
//! ```
#![tactic(auto)]

mod buffer;
mod delivery;
mod digits;
mod folds;
mod line;
mod refusal;
mod states;
mod summary;
mod walk;

pub use buffer::{Report, labelled_line_of, line_of};
pub use delivery::report_of;
pub use folds::fold_report_of;
pub use refusal::{error_name, refused_line};
pub use summary::{Summary, summary_of};
pub use walk::walk_report_of;
