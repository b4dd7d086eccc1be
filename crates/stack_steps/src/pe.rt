// Frames of PE modules: what is found for an address, its caller, and its language table.
ghost use Rattle.std.specs.Prelude.{◌≡◌, ◌-◌, ◌<◌, ◌≤◌, ◌^◌, Ok, OnErr};
ghost use Rattle.std.specs.Option.{option_map};
ghost use Rattle.unwinding_frames.specs.ContextSeen.{language_place_of};
ghost use Rattle.memory_image.specs.Results.{result_map};
ghost use Rattle.stack_steps.specs.FrameViews.{GivesFrameAt, recorded_frame_of};
ghost use Rattle.stack_steps.specs.Asking.{named_table};
ghost use Rattle.stack_steps.specs.Pe.{frame};
ghost use Rattle.stack_steps.specs.Stepping.{caller_by};

use crate::error::DeliverError;
use crate::frames::FoundFrame;
use crate::space::{Module, PeTables};
use format_frames::{PeModule, Stepped, pe_caller, pe_functions, pe_place};
use memory_image::MemoryImage;
use pe_unwind_info::x86_64::FunctionTableEntries;
use unwind_arch::x86_64::RSP;
use unwinding_frames::{Place, Window};

/// A frame of a PE module: the function table in which its function is looked up.
#[derive(Clone, Copy, Debug)]
pub struct RecordedFrame<'a> {
    container: PeModule,
    functions: FunctionTableEntries<'a>,
    // how far the frame's address is from the module's base
    rva: u32,
}

impl<'a> RecordedFrame<'a> {
    /// Where the function's language table stands: the data of the handler that a record of it names.
    /// `None` where none does.
    #[inline(never)]
    pub(crate) fn place(&self, image: &MemoryImage<'_>) -> Result<Option<Place>, DeliverError>
        ensures { result_map (option_map (λ p. Ok (language_place_of p))) result ≡
            named_table image.now (recorded_frame_of self.now) }
    {
        Ok(pe_place(image, &self.container, &self.functions, self.rva)?)
    }

    /// Puts its caller, by the unwind records of the function, in the place of its state. After a fault
    /// the state is as before. `stack` is a window over the image.
    #[inline(never)]
    pub(crate) fn step_to_caller(
        &self,
        stack: &mut Window<'_, '_>,
        state: &mut Stepped,
    ) -> Result<(), DeliverError>
        ensures caller { result_map (λ done. state.new) result ≡
            caller_by stack.old state.old.context (recorded_frame_of self.now) }
        ensures stays { OnErr result (state.new ≡ state.old) }
        ensures same { stack.new ≡ stack.old }
    {
        let context = &state.context;
        let caller = pe_caller(stack, &self.container, &self.functions, self.rva, context)?;
        // A look at them tells the proof that there are sixteen registers.
        let _ = caller.registers[RSP];
        state.context = caller;
        state.signal = false;
        Ok(())
    }
}

/// The frame at an address of a PE module. `stack` is a window over the image.
#[inline(never)]
pub(crate) fn frame<'f, 'a>(
    stack: &mut Window<'_, 'a>,
    address: u64,
    holder: &Module,
    tables: PeTables,
) -> Result<Option<FoundFrame<'f, 'a>>, DeliverError>
    requires from { holder.now.start ≤ address }
    requires within { address < holder.now.end }
    requires placed { holder.now.end - holder.now.start < 2 ^ 32 }
    ensures frame { GivesFrameAt result
        (frame stack.old address holder.now tables) }
    ensures same { stack.new ≡ stack.old }
{
    let container = PeModule {
        base: holder.start,
        size: (holder.end - holder.start) as u32,
        table_rva: tables.table_rva,
        table_size: tables.table_size,
    };
    let functions = pe_functions(stack, &container)?;
    Ok(Some(FoundFrame::Recorded(RecordedFrame {
        container,
        functions,
        rva: (address - holder.start) as u32,
    })))
}
