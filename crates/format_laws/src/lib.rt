//! Laws of the definitions of PE and Mach-O modules, and samples that meet them, as functions with
//! empty bodies: what stands in a contract here is proved.
//!
//! `pe` says that the step in a described PE module undoes a call, from wherever the function is
//! stopped, and `macho` that the step in a described Mach-O module does, from a body. `chains` says
//! that chains through modules of all three formats are walked, and `validity` that a start has one
//! chain and one delivery. `samples` shows modules, states and chains that meet these laws.
#![tactic(auto)]

mod chains;
mod macho;
mod pe;
mod samples;
mod validity;

pub use chains::{
    format_call_is_undone, format_chain_is_walked, uncovered_macho_address_ends_the_stack,
};
pub use macho::{macho_body_is_undone, opcode_is_undone};
pub use pe::{pe_body_is_undone, pe_epilog_is_undone, pe_leaf_is_undone, pe_prologue_is_undone};
pub use samples::{
    calls_through_formats_are_a_chain, calls_through_formats_are_caught,
    damaged_macho_page_describes_nothing, dwarf_opcode_is_described,
    endless_pe_record_describes_nothing, indirect_opcode_is_described, macho_calls_are_entered,
    pe_call_by_chained_records_is_entered, pe_calls_are_entered, state_stands_in_a_pe_prologue,
    state_stands_in_an_elf_prologue, states_stand_in_a_pe_epilog,
    stops_in_a_pe_epilog_are_described, stops_in_formats_are_described,
};
pub use validity::{
    address_lies_in_one_module, format_chain_is_one, format_delivery_is_one,
    valid_format_chain_is_described,
};
