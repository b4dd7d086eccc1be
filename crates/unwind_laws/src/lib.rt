//! Laws of the definitions, and samples that meet them, as functions with empty bodies: what stands
//! in a contract here is proved.
//!
//! `numbers` says which bytes a number is read from, `rows` how a row is read and what it undoes, `tables` what is found in a described module,
//! `chains` what a described chain determines, `entries` which entries are read, and `samples` shows processes that are valid.
#![tactic(auto)]

mod chains;
mod entries;
mod numbers;
mod rows;
mod samples;
mod tables;

pub use chains::{
    call_is_undone, chain_is_one, chain_is_walked, delivery_is_one, part_of_a_call_is_undone,
    slots_lie_in_the_frame, stack_pointers_rise, valid_chain_is_described,
};
pub use entries::{emitted_augmentations_are_known, entries_are_spelled};
pub use numbers::{
    relative_pointer_is_spelled, signed_number_is_spelled, unsigned_number_is_spelled,
};
pub use rows::{
    body_row_undoes, caller_is_by_rules, interrupted_row_undoes, outermost_row_undoes,
    prologue_row_undoes, reading_gives_row, running_says_row,
};
pub use samples::{
    call_from_outside_is_valid, calls_are_caught, calls_by_a_header_are_caught,
    calls_of_an_outermost_function_are_valid, calls_through_a_frame_pointer_are_valid,
    calls_through_two_modules_are_caught, cut_language_table_describes_nothing,
    each_call_is_cleaned, header_table_lists_starts, language_tables_ask, one_call_is_valid,
    other_slot_is_no_entering, programs_run_without_fault, stack_ends_after_the_functions,
    state_stands_inside_a_prologue, three_calls_are_valid, unlisted_call_ends_the_program,
    windows_function_is_entered,
};
pub use tables::{
    described_function_asks, described_language_table_asks, function_is_found,
    header_search_answers_as_a_scan, header_search_halves, header_table_answers_as_a_scan,
    letters_are_reported, scan_finds_first, site_search_finds_action, uncovered_is_not_found,
};
