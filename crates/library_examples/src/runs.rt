// The example of `unwinding_core`.
use crate::call_frames::TABLE;
use crate::walks::STACK;
use anyhow::Result;
use memory_image::{MemoryImage, NoLedger, Steps};
use unwind_arch::x86_64::{Arch, Context, RBX, RSP};
use unwinding_core::{Frame, StaticFinder};

/// The caller of a frame that has pushed RBX.
pub(crate) fn print_caller(rt: &HostRuntime) -> Result<()> {
    let mut image = MemoryImage::new(rt.alloc());
    image.add(0x7000, &STACK)?;
    image.add(0x50_0000, &TABLE)?;
    let mut context = Context::default();
    context.ra = 0x40_1006;
    context.registers[RSP] = 0x7000;
    // example
    let finder = StaticFinder::new(0x40_1000, 0x40_1010, 0x50_0000);
    let mut steps = Steps::new(NoLedger);
    let frame = Frame::<Arch>::from_context(&image, &finder, &context, true, &mut steps)?;
    if let Some(frame) = frame {
        let caller = frame.unwind(&image, &context)?;
        println!(rt; "ra={:#x} rbx={:#x}", caller.ra, caller.registers[RBX])?;
    }
    // end
    Ok(())
}
