//! The walks of a core file's threads as lines of text. docs/FORMATS.md has the lines.
#![tactic(auto)]

mod lines;
mod mapped;
mod walking;

pub use lines::{core_refused_line, region_refused_line};
pub use mapped::{is_unmapped, mapped_walks_of_threads};
pub use walking::{core_report_of, walks_of_threads};
