// The example of `folded_stacks`.
use crate::call_frames::TABLE;
use crate::walks::STACK;
use anyhow::Result;
use folded_stacks::{Samples, fold};
use memory_image::MemoryImage;
use stack_deliver::{Context, FrameInfo, FrameInfoKind, Space};
use unwind_arch::x86_64::RSP;

/// The stacks of two samples of one thread.
pub(crate) fn print_stacks(rt: &HostRuntime) -> Result<()> {
    let stack = STACK;
    let eh_frame = TABLE;
    let mut image = MemoryImage::new(rt.alloc());
    image.add(0x7000, &stack)?;
    image.add(0x50_0000, &eh_frame)?;
    let mut space = Space::new(rt.alloc(), image);
    let kind = FrameInfoKind::EhFrame(0x50_0000);
    space.add_elf(
        0x40_1000,
        0x40_1010,
        FrameInfo {
            text_base: None,
            kind,
        },
    )?;
    let mut registers = [0; 16];
    registers[RSP] = 0x7000;
    let first = Context {
        ra: 0x40_1006,
        registers,
        ..Context::default()
    };
    let second = first;
    // example
    space.prepare()?;
    let mut samples = Samples::new(rt.alloc());
    samples.add(first, true)?;
    samples.add(second, true)?;
    let folded = fold(rt.alloc(), &space, &samples, 128)?;
    for i in 0..folded.len() {
        if let Some(stack) = folded.stack(i) {
            let count = folded.count(i).unwrap_or(0);
            println!(rt; "{stack:?} {count}")?;
        }
    }
    // end
    Ok(())
}
