//! The programs of call frame information, and the rows that they make.
//!
//! [`row_at`] runs the program of a common information entry and that of a description up to an
//! address, and gives the [`Row`] by which the caller of the function's frame is found there; a
//! [`RowRoom`] makes one row after another in the same place. Either lends it as a [`RowRef`].
//! [`RegisterMap`] is what a machine's registers are to a row.
//!
//! All instructions of DWARF 5 are read, and the GNU extension `DW_CFA_GNU_args_size`; any other is
//! unknown. [`constants`] names them.
//!
//! Source: DWARF 5 section 6.4.
#![tactic(auto)]

mod begun;
mod body_run;
mod coding;
pub mod constants;
mod instruction;
mod known_common;
mod known_programs;
mod known_steps;
mod machine;
mod program;
mod reach;
mod register;
mod room;
mod row;
mod row_bodies;
mod row_ref;
mod row_steps;
mod row_table;
mod row_table_builder;
mod row_walk;
mod rule;
mod rules;
mod stretch;

pub use coding::Coding;
pub use program::row_at;
pub use register::read_register;
pub use room::RowRoom;
pub use row::{Registers, Row};
pub use row_ref::RowRef;
pub use row_table::{RowLimits, RowRange, RowTable};
pub use row_table_builder::RowTableBuilder;
pub use row_walk::RowWalk;
pub use rule::{CfaRule, RegisterRule};
pub use unwind_arch::{Register, RegisterMap};
pub use unwind_definitions::Error;
