// The example of `pe_unwind_info`.
use anyhow::Result;
use pe_unwind_info::x86_64::{FunctionTableEntries, UnwindInfo};

/// The function table of one function, from 0x1000 to 0x1036, whose record lies at 0x2000.
const PDATA: [u8; 12] = [0, 0x10, 0, 0, 0x36, 0x10, 0, 0, 0, 0x20, 0, 0];

/// The record at 0x2000: a prologue of one byte that pushes RBX.
const XDATA: [u8; 8] = [0x01, 0x01, 0x01, 0x00, 0x01, 0x30, 0, 0];

/// The operations by which a frame is undone.
pub(crate) fn print_function(rt: &HostRuntime) -> Result<()> {
    let pdata = &PDATA;
    let xdata = &XDATA;
    // example
    let table = FunctionTableEntries::parse(pdata);
    if let Some(function) = table.lookup(0x1010) {
        println!(rt; "{function:?}")?;
        if let Some(info) = UnwindInfo::parse(xdata) {
            for operation in info.unwind_operations() {
                println!(rt; "{operation:?}")?;
            }
        }
    }
    // end
    Ok(())
}
