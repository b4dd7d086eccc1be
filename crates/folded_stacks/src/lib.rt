//! Folds samples of stacks: of each stack how many samples show it, as a profiler's picture is drawn
//! from.
//!
//! The stacks of two samples, over a space with the memory of their threads:
//!
//! ```rust
//! use folded_stacks::{Samples, fold};
//!
//! space.prepare()?;
//! let mut samples = Samples::new(rt.alloc());
//! samples.add(first, true)?;
//! samples.add(second, true)?;
//! let folded = fold(rt.alloc(), &space, &samples, 128)?;
//! for i in 0..folded.len() {
//!     if let Some(stack) = folded.stack(i) {
//!         let count = folded.count(i).unwrap_or(0);
//!         println!(rt; "{stack:?} {count}")?;
//!     }
//! }
//! ```
#![tactic(auto)]

mod folded;
mod folding;
mod laws;
mod samples;
mod stacks;

pub use folded::Folded;
pub use folding::{FoldError, fold};
pub use laws::{
    counts_are_exact, folds_count_each_sample, repeated_samples_are_folded, stacks_have_one_order,
};
pub use samples::{Sample, Samples};
