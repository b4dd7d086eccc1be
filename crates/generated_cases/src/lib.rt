//! Snapshots of generated chains: memory, one module that names its frame table's header, registers, and the
//! delivery of an exception that the outermost function catches.
#![tactic(auto)]

mod case;
mod counted;

pub use case::make_case;
pub use counted::deliver_case;
