//! Samples that meet the laws of Mach-O and PE modules, as functions with empty bodies: what stands in
//! a contract here is proved.
//!
//! `stops` shows states that were stopped where they stand in functions of PE modules: in a prologue
//! whose first steps a chained record tells of, at each instruction of an epilog that no record
//! lists, before the `lea` of one, in one that ends with the function, and before the body of a leaf.
//! `macho` shows Mach-O modules: one in which a stack ends, and one with frame data. `handlers` shows
//! modules of three formats, in each of which a function has a handler.
#![tactic(auto)]

mod handlers;
mod macho;
mod stops;

pub use handlers::functions_with_handlers_are_described;
pub use macho::{
    functions_of_a_chain_share_no_address, macho_module_with_frame_data_is_described,
    stack_ends_in_a_macho_module,
};
pub use stops::{
    stop_before_the_body_of_a_leaf_is_described, stop_before_the_lea_of_an_epilog_is_described,
    stops_after_chained_steps_are_described,
    stops_in_an_epilog_that_ends_with_the_function_are_described,
    stops_in_an_unlisted_epilog_are_described,
};
