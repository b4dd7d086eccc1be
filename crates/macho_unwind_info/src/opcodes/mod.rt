mod arm64;
mod bitfield;
mod permutation;
mod text;
mod x86;
mod x86_64;

pub use arm64::OpcodeArm64;
pub use bitfield::OpcodeBitfield;
pub use permutation::decode_permutation_6;
pub use x86::{OpcodeX86, RegisterNameX86};
pub use x86_64::{OpcodeX86_64, RegisterNameX86_64};
