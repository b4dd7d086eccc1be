// The example of `eh_frame`.
use anyhow::Result;
use eh_frame::{Bases, EhFrame};

/// A frame table at 0x500000: a function from 0x401000 to 0x401010 that pushes RBX, as
/// `readelf --debug-dump=frames-interp` lists it.
pub(crate) const TABLE: [u8; 52] = [
    0x14, 0, 0, 0, 0, 0, 0, 0, 0x01, 0x7a, 0x52, 0, 0x01, 0x78, 0x10, 0x01, 0x1b, 0x0c, 0x07, 0x08,
    0x90, 0x01, 0, 0, 0x14, 0, 0, 0, 0x1c, 0, 0, 0, 0xe0, 0x0f, 0xf0, 0xff, 0x10, 0, 0, 0, 0, 0x41,
    0x0e, 0x10, 0x83, 0x02, 0, 0, 0, 0, 0, 0,
];

/// The row after the push.
pub(crate) fn print_row(rt: &HostRuntime) -> Result<()> {
    let section = &TABLE;
    // example
    let table = EhFrame::new(section, 0x50_0000);
    let bases = Bases::default();
    let fde = table.fde_for_address(&bases, 0x40_1005)?;
    let row = fde.unwind_info_for_address(&table, &bases, 0x40_1005)?;
    println!(rt; "{:?}", row.cfa())?;
    for (register, rule) in row.registers() {
        println!(rt; "{register:?} {rule:?}")?;
    }
    // end
    Ok(())
}
