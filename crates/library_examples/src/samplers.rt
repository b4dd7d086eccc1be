// The example of a sampler: many stacks over the same modules, in one room.
use crate::call_frames::TABLE;
use crate::walks::STACK;
use anyhow::Result;
use memory_image::{MemoryImage, NoLedger, Steps};
use stack_deliver::{Context, FrameInfo, FrameInfoKind, Room, Space, walk_to_end_into};
use unwind_arch::x86_64::RSP;

/// The frames of two samples: of one whose stack is there, and of one whose stack pointer lies in no region.
pub(crate) fn print_samples(rt: &HostRuntime) -> Result<()> {
    let stack = STACK;
    let eh_frame = TABLE;
    let mut image = MemoryImage::new(rt.alloc());
    image.add(0x7000, &stack)?;
    image.add(0x50_0000, &eh_frame)?;
    let mut space = Space::new(rt.alloc(), image);
    let kind = FrameInfoKind::EhFrame(0x50_0000);
    space.add_elf(
        0x40_1000,
        0x40_1010,
        FrameInfo {
            text_base: None,
            kind,
        },
    )?;
    let mut registers = [0; 16];
    registers[RSP] = 0x7000;
    let whole = Context {
        ra: 0x40_1006,
        registers,
        ..Context::default()
    };
    registers[RSP] = 0x9000;
    let samples = [whole, Context { registers, ..whole }];
    // example
    space.prepare()?;
    let mut room = Room::new(rt.alloc(), 128)?;
    let mut steps = Steps::new(NoLedger);
    for start in &samples {
        let reason = walk_to_end_into(&space, start, true, 128, &mut room, &mut steps);
        for i in 0..room.visited_len() {
            if let Some(context) = room.visited(i) {
                println!(rt; "{:#x}", context.ra)?;
            }
        }
        println!(rt; "{reason:?}")?;
    }
    // end
    Ok(())
}
