// Frames of Mach-O modules: what is found for an address, its caller, and its language table.
ghost use Rattle.std.specs.Prelude.{◌≡◌, ◌-◌, ◌<◌, ◌≤◌, ◌^◌, Ok, OnErr};
ghost use Rattle.std.specs.Option.{option_map};
ghost use Rattle.unwinding_frames.specs.ContextSeen.{language_place_of};
ghost use Rattle.format_frames.specs.FrameData.{description_of};
ghost use Rattle.format_frames.specs.Modules.{macho_module};
ghost use Rattle.memory_image.specs.Results.{result_map};
ghost use Rattle.stack_steps.specs.FrameViews.{GivesFrameAt, compact_frame_of};
ghost use Rattle.stack_steps.specs.Asking.{named_table};
ghost use Rattle.stack_steps.specs.Macho.{frame, opcode_frame};
ghost use Rattle.stack_steps.specs.Stepping.{caller_by};

use crate::elf::described_frame;
use crate::error::DeliverError;
use crate::frames::FoundFrame;
use crate::space::{MachoTables, Module};
use eh_frame::RowRoom;
use fde_finders::FDESearchResult;
use format_frames::{
    MachoModule, Stepped, macho_caller, macho_description, macho_function, macho_place,
};
use macho_unwind_info::Function;
use memory_image::MemoryImage;
use unwind_arch::x86_64::RSP;
use unwinding_frames::{Place, Window};

/// A frame of a Mach-O module by compact unwinding: the function that its section has there, whose
/// opcode points to no frame data.
#[derive(Debug, Drop)]
pub struct CompactFrame {
    container: MachoModule,
    function: Function,
}

impl CompactFrame {
    /// Where the function's language table stands, `None` where it has none.
    #[inline(never)]
    pub(crate) fn place(&self, image: &MemoryImage<'_>) -> Result<Option<Place>, DeliverError>
        ensures { result_map (option_map (λ p. Ok (language_place_of p))) result ≡
            named_table image.now (compact_frame_of self.now) }
    {
        match macho_place(image, &self.container, &self.function) {
            Ok(place) => Ok(place),
            Err(error) => Err(DeliverError::MachO(error)),
        }
    }

    /// Puts its caller, by the opcode of the function, in the place of its state. After a fault the
    /// state is as before. `stack` is a window over the image.
    #[inline(never)]
    pub(crate) fn step_to_caller(
        &self,
        stack: &mut Window<'_, '_>,
        state: &mut Stepped,
    ) -> Result<(), DeliverError>
        ensures caller { result_map (λ done. state.new) result ≡
            caller_by stack.old state.old.context (compact_frame_of self.now) }
        ensures stays { OnErr result (state.new ≡ state.old) }
        ensures same { stack.new ≡ stack.old }
    {
        let context = &state.context;
        let caller = macho_caller(stack, &self.container, &self.function, context)?;
        // A look at them tells the proof that there are sixteen registers.
        let _ = caller.context.registers[RSP];
        *state = caller;
        Ok(())
    }
}

/// The frame at an address of a Mach-O module. Where the opcode of its function points to frame data,
/// it lends the description from `place`, and its row from `rows`. `stack` is a window over the image.
#[inline(never)]
pub(crate) fn frame<'f, 'a>(
    stack: &mut Window<'_, 'a>,
    address: u64,
    holder: &Module,
    tables: MachoTables,
    place: &'f mut Option<FDESearchResult<'a>>,
    rows: &'f mut RowRoom<'a>,
) -> Result<Option<FoundFrame<'f, 'a>>, DeliverError>
    requires from { holder.now.start ≤ address }
    requires within { address < holder.now.end }
    requires placed { holder.now.end - holder.now.start < 2 ^ 32 }
    ensures frame { GivesFrameAt result
        (frame stack.old address holder.now tables) }
    ensures same { stack.new ≡ stack.old }
{
    let container = MachoModule {
        base: holder.start,
        size: (holder.end - holder.start) as u32,
        unwind_info: tables.unwind_info,
        frames: tables.frames,
    };
    match macho_function(stack, &container, (address - holder.start) as u32) {
        Ok(Some(function)) => {
            listed_frame(stack.image(), address, container, function, place, rows)
        }
        Ok(None) => Ok(None),
        Err(error) => Err(DeliverError::MachO(error)),
    }
}

/// The frame at an address of a function of a Mach-O module.
fn listed_frame<'f, 'a>(
    image: &MemoryImage<'a>,
    address: u64,
    container: MachoModule,
    function: Function,
    place: &'f mut Option<FDESearchResult<'a>>,
    rows: &'f mut RowRoom<'a>,
) -> Result<Option<FoundFrame<'f, 'a>>, DeliverError>
    ensures { GivesFrameAt result (opcode_frame (macho_module container) address function
        (description_of image.now (macho_module container) function)) }
{
    match macho_description(image, &container, &function) {
        Ok(Some(found)) => described_frame(address, found, place, rows),
        Ok(None) => Ok(Some(FoundFrame::Compact(CompactFrame {
            container,
            function,
        }))),
        Err(fault) => Err(DeliverError::Table(fault)),
    }
}
