// The example of `stack_deliver`.
use crate::call_frames::TABLE;
use anyhow::Result;
use memory_image::MemoryImage;
use stack_deliver::{Context, FrameInfo, FrameInfoKind, Space, walk};
use unwind_arch::x86_64::RSP;

/// The words of a stack at 0x7000: the pushed RBX, and the return address of the outermost function.
pub(crate) const STACK: [u8; 16] = [5, 0, 0, 0, 0, 0, 0, 0, 0, 0, 0, 0, 0, 0, 0, 0];

/// The frames of that stack.
pub(crate) fn print_walk(rt: &HostRuntime) -> Result<()> {
    let stack = STACK;
    let eh_frame = TABLE;
    let mut registers = [0; 16];
    registers[RSP] = 0x7000;
    // example
    let mut image = MemoryImage::new(rt.alloc());
    image.add(0x7000, &stack)?;
    image.add(0x50_0000, &eh_frame)?;
    let mut space = Space::new(rt.alloc(), image);
    let kind = FrameInfoKind::EhFrame(0x50_0000);
    space.add_elf(
        0x40_1000,
        0x40_1010,
        FrameInfo {
            text_base: None,
            kind,
        },
    )?;
    let start = Context {
        ra: 0x40_1006,
        registers,
        ..Context::default()
    };
    let visited = walk(rt.alloc(), &space, &start, true, 1_000)?;
    for i in 0..visited.len() {
        if let Some(context) = visited.get(i) {
            println!(rt; "{:#x}", context.ra)?;
        }
    }
    // end
    Ok(())
}
