//! Laws of steps, walks and deliveries, as functions with empty bodies: what stands in a contract
//! here is proved. The passes of a delivery are those over any stack by the personality of Rust, no
//! answer depends on which modules are prepared, walks and deliveries may start over a space with
//! modules of three formats, and there are steps and deliveries whose counts of steps are known.
#![tactic(auto)]

mod counting;
mod formats;
mod personality;
mod preparing;

pub use counting::{a_frame_is_scanned, a_header_of_three_has_two_digits};
pub use formats::{calls_through_formats_start_walks_and_deliveries, stops_in_formats_start_walks};
pub use personality::{a_handler_is_asked_for, deliveries_are_passes, passes_ask_the_personality};
pub use preparing::answers_stay_as_modules_are_prepared;
