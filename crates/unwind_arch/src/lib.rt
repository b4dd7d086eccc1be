//! The registers of the machines that are unwound, by the columns of call frame information.
//!
//! Each module is a machine: its `Context` holds the registers of a frame, and is a [`RegisterMap`];
//! `Arch` names the columns that unwinding needs, and is a [`Machine`] where the registers have 64
//! bits.
#![tactic(auto)]

pub mod aarch64;
pub mod loongarch64;
mod machine;
mod numbers;
mod register;
mod register_files;
mod register_map;
pub mod riscv32;
pub mod riscv64;
pub mod x86;
pub mod x86_64;

pub use machine::Machine;
pub use numbers::numbers_are_those_of_the_abis;
pub use register::Register;
pub use register_map::RegisterMap;
