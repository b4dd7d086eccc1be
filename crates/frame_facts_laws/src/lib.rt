//! Laws of facts and of the rows that say them, and samples that meet their premises, as functions
//! with empty bodies: what stands in a contract here is proved.
//!
//! `rows` says that a row which says facts gives the caller, `steps` that a prologue's steps make
//! facts known which described rows say, `chains` that a chain of facts is walked, and that
//! described chains are such, `claims` that one row for each stretch decides a claim, `deliveries`
//! what is asked and delivered along a chain of facts, and `samples` shows a program's states,
//! chains and claims.
#![tactic(auto)]

mod chains;
mod claims;
mod deliveries;
mod rows;
mod samples;
mod steps;

pub use chains::{
    body_stop_begins_a_fact_chain, described_chain_is_a_fact_chain, fact_chain_is_walked,
    frame_with_facts_is_undone, prologue_stop_begins_a_fact_chain,
    signal_frame_gives_the_interrupted_state, stack_pointers_rise_by_facts,
};
pub use claims::{claim_is_said_by_stretches, claims_say_facts};
pub use deliveries::{
    calls_are_delivered_alike, cleaned_frame_goes_on, described_chain_asks,
    description_with_facts_asks,
};
pub use rows::{
    row_that_says_a_signal_frame_gives_the_interrupted_state, row_that_says_facts_undoes,
};
pub use samples::{
    aligned_frame_is_known, claims_are_said, cleaned_frame_is_known, overwritten_register_is_known,
    part_is_known, popped_registers_are_known, pushed_arguments_are_known, signal_frame_is_known,
    start_is_known, stops_begin_fact_chains,
};
pub use steps::{
    body_has_facts, described_call_has_facts, described_stop_has_facts,
    outermost_function_has_facts, prologue_has_facts,
};
