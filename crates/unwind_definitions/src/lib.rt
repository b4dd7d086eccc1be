//! What a reader of this project has to believe: the definitions that its theorems speak of, in
//! `specs/`, and the one Rust type that they name.
//!
//! `docs/DEFINITIONS.md` goes through them in words.
#![tactic(auto)]

mod error;

pub use error::Error;
