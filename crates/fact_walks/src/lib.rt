//! Laws of stacks of each of whose frames it is known how the caller's state follows, as functions
//! with empty bodies: what stands in a contract here is proved. `stacks` has the laws, and `samples`
//! starts that meet what the clauses of steps and walks ask; `signals` has both of signals' frames.
#![tactic(auto)]

mod samples;
mod signals;
mod stacks;

pub use samples::{
    call_of_a_push_is_a_described_chain, frames_of_each_kind_are_known,
    walks_from_stops_begin_known_stacks,
};
pub use signals::{
    known_stack_without_signals_rises, walk_through_a_signal_frame_begins_a_known_stack,
};
pub use stacks::{
    described_starts_are_known, fact_chain_is_a_known_stack, frame_with_facts_is_met,
    known_stack_is_one,
};
