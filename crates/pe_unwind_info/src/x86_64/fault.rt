// Why a frame can't be unwound.
use thiserror::Error;

/// Why a frame can't be unwound.
#[derive(Clone, Copy, Debug, PartialEq, Eq, Error)]
pub enum FrameFault {
    /// There is no memory at this relative virtual address, where an unwind record should stand.
    #[error("no memory at the unwind record {0:#x}")]
    Memory(u32),
    /// The bytes at this relative virtual address aren't an unwind record.
    #[error("no unwind record at {0:#x}")]
    Info(u32),
    /// The bytes from the address to the function's end, which an epilog may be among, aren't all
    /// there.
    #[error("the bytes up to the function's end aren't all there")]
    EpilogBytes,
    /// There is no word of the stack at this address.
    #[error("no word of the stack at {0:#x}")]
    Stack(u64),
    /// More than 32 records are chained to one another.
    #[error("more than 32 chained unwind records")]
    ChainLimit,
}
