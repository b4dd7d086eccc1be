mod compressed_function;
pub mod consts;
mod format;
mod impls;
mod unaligned;

pub use crate::num_display::{BinNum, HexNum};
pub use compressed_function::CompressedFunctionEntry;
pub use format::{
    CompactUnwindInfoHeader, CompressedPage, LsdaEntry, Opcode, PageEntry, RegularFunctionEntry,
    RegularPage,
};
pub use unaligned::{U16, U32};
