//! Claims of what is known of a module's code, read from JSON, and what an audit of them finds, as
//! lines of text. docs/FORMATS.md has what is read and the lines.
#![tactic(auto)]

mod claimed;
mod code;
mod errors;
mod lines;
mod reading;
mod said;

pub use code::{ClaimedCode, read_code};
pub use errors::ClaimsError;
pub use lines::{audit_report, refused_line};
