//! Laws of deliveries over stacks that are known frame by frame, as functions with empty bodies:
//! what stands in a contract here is proved. `deliveries` has the laws, and `landings` a delivery
//! that meets what the clauses `known` of deliveries ask.
#![tactic(auto)]

mod deliveries;
mod landings;

pub use deliveries::{described_deliveries_are_known, known_delivery_is_one};
pub use landings::{
    a_handler_after_a_cleanup_is_known, a_throw_of_cxx_is_known, landings_past_arguments_are_known,
    landings_through_formats_are_known,
};
