// From a frame to its caller, by the tables of the module that holds it.
ghost use Rattle.std.specs.Prelude.{◌≡◌, ◌≢◌, ◌↔◌, ◌<◌, ◌≤◌, ◌^◌, ℕ, List, length, Option, Some, None, Ok};
ghost use Rattle.std.specs.Prelude.{Err, IfSome, IsNone, IsTrue, IsFalse, MatchOption, OnErr, Result, false, is_some, true};
ghost use Rattle.memory_image.specs.Image.{word_at, IsLaidOut};
ghost use Rattle.unwind_definitions.specs.declared.error.Error.{Error as Fault};
ghost use Rattle.unwind_definitions.specs.State.{State, IsState, Shows};
ghost use Rattle.unwind_definitions.specs.Function.{Function};
ghost use Rattle.unwind_definitions.specs.Chain.{Call};
ghost use Rattle.unwind_definitions.specs.LanguageSearch.{address_of_call};
ghost use Rattle.frame_facts.specs.FactChains.{FactFrame, IsFactLink};
ghost use Rattle.frame_facts.specs.SignalFrames.{SignalFrame, IsSignalLink};
ghost use Rattle.unwind_arch.specs.ContextViews.{columns_of};
ghost use Rattle.eh_frame.specs.Index.{AreFewSteps};
ghost use Rattle.frame_rows.specs.Rows.{IsRowOf};
ghost use Rattle.macho_unwind_info.specs.declared.error.Error.{Error as MachoFault};
ghost use Rattle.format_definitions.specs.Calls.{IsDescribedCall};
ghost use Rattle.format_definitions.specs.Stops.{IsDescribedStop};
ghost use Rattle.stack_steps.specs.AddedModule.{IsAddedModule, added_of};
ghost use Rattle.stack_steps.specs.MadeRows.{AreMade, IsMade};
ghost use Rattle.stack_steps.specs.Modules.{AreApart, SpaceValue};
ghost use Rattle.stack_steps.specs.ModulesAsked.{IsAsked};
ghost use Rattle.stack_steps.specs.Preparing.{prepared_len};
ghost use Rattle.stack_steps.specs.SpaceViews.{process_of, formats_of};
ghost use Rattle.stack_steps.specs.FrameViews.{IsFrameOf, GivesFrameAt};
ghost use Rattle.stack_steps.specs.Ticking.{IsScannedAt, RisesBySearch, RisesWithin, TicksAt, TicksIn};
ghost use Rattle.stack_steps.specs.Ticking.{searched_at};
ghost use Rattle.memory_image.specs.Results.{result_map};
ghost use Rattle.stack_steps.specs.Growing.{advanced_to};
ghost use Rattle.stack_steps.specs.Interrupting.{Interrupted};
ghost use Rattle.stack_steps.specs.Elf.{caller};
ghost use Rattle.stack_steps.specs.Frames.{DescribedFrame, FrameAt};
ghost use Rattle.stack_steps.specs.Stepping.{frame_in, frame_of, caller_by};
ghost use Rattle.stack_steps.specs.Stepping.{step_of, GivesCaller, EndsAt, FaultsAt};
ghost use Rattle.stack_steps.specs.Stepping.{ReadIsUnmapped};
ghost use Rattle.stack_steps.specs.Stepping.{IsUnreadSection, IsWithoutForm, IsUnreadInfo};
ghost use Rattle.stack_steps.specs.Stepping.{IsChainedTooLong};
ghost use Rattle.stack_steps.specs.Undoing.{Undone, UndoneIn};

use crate::elf;
use crate::error::DeliverError;
use crate::frames::{self, FoundFrame};
use crate::grown::GrownSpace;
use crate::made_rows::{MadeRow, MadeRows};
use crate::prepared::PreparedTable;
use crate::space::{AddedModule, Space};
use eh_frame::RowRoom;
use fde_finders::FDESearchResult;
use format_frames::Stepped;
use memory_image::{Ledger, MemoryImage, NoLedger, Steps};
use std::marker::Model;
use unwind_arch::x86_64::{Context, RSP};
use unwinding_frames::{Window, address_asked};

/// What goes from frame to frame over a space: beside the space a window over the image that it is
/// seen over, and where the module of the frame before stands in the order of adding, which is tried
/// first. Neither changes an answer.
///
/// Contracts see the space with that image.
#[derive(Drop)]
pub struct Stepper<'s, 't, 'a> {
    space: &'s Space<'t>,
    stack: Window<'s, 'a>,
    near: usize,
}

impl<'s, 't, 'a> Model for Stepper<'s, 't, 'a> {
    ghost use Rattle.stack_steps.specs.Growing.{Grows, over_image};
    ghost use Rattle.stack_steps.specs.Modules.{SpaceValue};

    ghost Value = { SpaceValue };

    ghost view = { λ s. over_image s.space.now s.stack };

    ghost invariant = { λ s. Grows s.space.now.image s.stack };
}

impl<'s, 't, 'a> Stepper<'s, 't, 'a>
where
    't: 'a,
{
    /// Over a space, with a window at a stack pointer.
    pub fn over(space: &GrownSpace<'s, 't, 'a>, stack_pointer: u64) -> Stepper<'s, 't, 'a>
        ensures { result ≡ space.now }
    {
        Stepper {
            space: space.space,
            stack: Window::new(space.image, stack_pointer),
            near: 0,
        }
    }

    /// The image that the space is seen over.
    pub fn image(&self) -> &'s MemoryImage<'a>
        ensures image { result.now ≡ self.now.image }
        ensures laid_out { IsLaidOut 0 self.now.image }
    {
        let image = self.stack.image();
        image.laid_out();
        image
    }

    /// The window over the image.
    #[inline(always)]
    pub(crate) fn stack(&self) -> &Window<'s, 'a>
        ensures { result.now ≡ self.now.image }
    {
        &self.stack
    }

    /// The module that holds the address asked at a state, `None` at the end of the stack.
    #[tactic(auto, unfolding(crate::specs::Stepping::frame_of))]
    fn holder_at(&mut self, context: &Context, interrupted: bool) -> Option<&'s AddedModule<'t>>
        ensures ends { IsNone result → frame_of self.old context.now interrupted ≡ Ok None }
        ensures frame { IfSome result (λ added_module.
            frame_of self.old context.now interrupted ≡ frame_in self.old.image
            (address_of_call context.now.ra interrupted) (Some added_module.now.holder)) }
        ensures added_module { IfSome result (λ added_module.
            IsAddedModule self.old.image added_module.now) }
        ensures within { IfSome result (λ added_module.
            let address = address_of_call context.now.ra interrupted in
            (added_module.now.holder.start ≤ address) × (address < added_module.now.holder.end)) }
        ensures ticks { (old new : ℕ) →
            MatchOption result (new ≡ old)
            (λ added_module. TicksIn self.old.image (added_of added_module.now) old new) →
            TicksAt self.old context.now interrupted old new }
        ensures same { self.new ≡ self.old }
    {
        if context.ra == 0 {
            return None;
        }
        let address = address_asked(context.ra, interrupted);
        self.space.added_near(address, &mut self.near)
    }

    /// The module whose tables are asked for the frame at a state, `None` at the end of the stack.
    #[inline(always)]
    pub fn module_asked(
        &mut self,
        context: &Context,
        interrupted: bool,
    ) -> Option<&'s AddedModule<'t>>
        ensures ends { IsNone result → frame_of self.old context.now interrupted ≡ Ok None }
        ensures unsearched { (n : ℕ) → IsNone result →
            TicksAt self.old context.now interrupted n n }
        ensures asked { IfSome result (λ added_module.
            IsAsked self.old context.now interrupted added_module.now) }
        ensures same { self.new ≡ self.old }
    {
        self.holder_at(context, interrupted)
    }

    /// The frame at a state: what was found for the address asked, `None` at the end of the stack.
    /// What isn't lent by an index is put into `place`, and its row made in `rows`.
    #[inline(always)]
    pub fn frame_at<'f, L: Ledger>(
        &mut self,
        state: &Stepped,
        place: &'f mut Option<FDESearchResult<'a>>,
        rows: &'f mut RowRoom<'a>,
        steps: &mut Steps<L>,
    ) -> Result<Option<FoundFrame<'f, 'a>>, DeliverError>
    where
        's: 'f,
        ensures frame { GivesFrameAt result
            (frame_of self.old state.now.context state.now.signal) }
        ensures ticks { TicksAt self.old state.now.context state.now.signal steps.old.number
            steps.new.number }
        ensures same { self.new ≡ self.old }
    {
        // Its regions are laid out, as the image's type says.
        let _ = self.image();
        let Some(added_module) = self.module_asked(&state.context, state.signal) else {
            return Ok(None);
        };
        if added_module.is_prepared() {
            self.prepared_frame(added_module, state, steps)
        } else {
            self.searched_frame(added_module, state, place, rows, steps)
        }
    }

    /// The frame at a state that lies in a module that is prepared: the index lends its row.
    #[inline(always)]
    pub fn prepared_frame<'f, L: Ledger>(
        &self,
        added_module: &'f AddedModule<'t>,
        state: &Stepped,
        steps: &mut Steps<L>,
    ) -> Result<Option<FoundFrame<'f, 'a>>, DeliverError>
        requires prepared { is_some added_module.now.table ≡ true }
        requires asked { IsAsked self.now state.now.context state.now.signal added_module.now }
        ensures frame { GivesFrameAt result
            (frame_of self.now state.now.context state.now.signal) }
        ensures ticks { TicksAt self.now state.now.context state.now.signal steps.old.number
            steps.new.number }
    {
        self.prepared_frame_at(added_module, state, state.address(), steps)
    }

    /// The same, where the address that is asked is known.
    #[inline(always)]
    fn prepared_frame_at<'f, L: Ledger>(
        &self,
        added_module: &'f AddedModule<'t>,
        state: &Stepped,
        address: u64,
        steps: &mut Steps<L>,
    ) -> Result<Option<FoundFrame<'f, 'a>>, DeliverError>
        requires prepared { is_some added_module.now.table ≡ true }
        requires asked { IsAsked self.now state.now.context state.now.signal added_module.now }
        requires address { address ≡
            address_of_call state.now.context.ra state.now.signal }
        ensures frame { GivesFrameAt result
            (frame_of self.now state.now.context state.now.signal) }
        ensures ticks { TicksAt self.now state.now.context state.now.signal steps.old.number
            steps.new.number }
    {
        // Its regions are laid out, as the image's type says.
        let _ = self.image();
        let Some(shared) = &added_module.table else {
            unreachable!()
        };
        let table: &'f PreparedTable<'a> = shared.table();
        elf::prepared_frame(table, address, steps)
    }

    /// The frame at a state that lies in a module that isn't prepared. What is found is put into
    /// `place`, and its row made in `rows`.
    #[inline(always)]
    pub fn searched_frame<'f, L: Ledger>(
        &mut self,
        added_module: &AddedModule<'t>,
        state: &Stepped,
        place: &'f mut Option<FDESearchResult<'a>>,
        rows: &'f mut RowRoom<'a>,
        steps: &mut Steps<L>,
    ) -> Result<Option<FoundFrame<'f, 'a>>, DeliverError>
        requires unprepared { is_some added_module.now.table ≡ false }
        requires asked { IsAsked self.old state.now.context state.now.signal added_module.now }
        ensures frame { GivesFrameAt result
            (frame_of self.old state.now.context state.now.signal) }
        ensures ticks { TicksAt self.old state.now.context state.now.signal steps.old.number
            steps.new.number }
        ensures same { self.new ≡ self.old }
    {
        frames::frame(
            &mut self.stack,
            state.address(),
            &added_module.holder,
            place,
            rows,
            steps,
        )
    }

    /// Puts the caller of the frame at a state in the state's place. After a fault the state is as
    /// before.
    #[inline(always)]
    pub fn step_to_caller(
        &mut self,
        state: &mut Stepped,
        frame: &FoundFrame<'_, 'a>,
    ) -> Result<(), DeliverError>
        ensures caller { (f : FrameAt) → IsFrameOf frame.now f →
            result_map (λ done. state.new) result ≡ caller_by self.old.image state.old.context f }
        ensures stays { OnErr result (state.new ≡ state.old) }
        ensures same { self.new ≡ self.old }
    {
        if frame.step_in_place(&self.stack, state) {
            return Ok(());
        }
        self.step_by_copy(state, frame)
    }

    /// The same by a copy of the registers, since a step may have a fault after it has written some.
    #[inline(never)]
    fn step_by_copy(
        &mut self,
        state: &mut Stepped,
        frame: &FoundFrame<'_, 'a>,
    ) -> Result<(), DeliverError>
        ensures caller { (f : FrameAt) → IsFrameOf frame.now f →
            result_map (λ done. state.new) result ≡ caller_by self.old.image state.old.context f }
        ensures stays { OnErr result (state.new ≡ state.old) }
        ensures same { self.new ≡ self.old }
    {
        let callee = state.context.copied();
        let left = self.write_caller_state(&callee, frame, state);
        if left.is_err() {
            state.context = callee;
        }
        left
    }

    /// Makes a copy of the state at a frame its caller's. After a fault the copy's registers are
    /// unspecified.
    #[inline(always)]
    fn write_caller_state(
        &mut self,
        callee: &Context,
        frame: &FoundFrame<'_, 'a>,
        next: &mut Stepped,
    ) -> Result<(), DeliverError>
        requires { next.old.context ≡ callee.now }
        ensures caller { (f : FrameAt) → IsFrameOf frame.now f →
            result_map (λ done. next.new) result ≡ caller_by self.old.image callee.now f }
        ensures mark { OnErr result (next.new.signal ≡ next.old.signal) }
        ensures same { self.new ≡ self.old }
    {
        frame.step_to_caller(&mut self.stack, callee, next)
    }
}

impl<'s, 't, 'a> Stepper<'s, 't, 'a>
where
    't: 'a,
{
    /// Puts the caller of the frame at a state in the state's place, and answers whether there is one.
    /// At the end of the stack and after a fault the state is as before. No room for rows is lent: one
    /// is made for the frame of a module that isn't prepared.
    ///
    /// # Errors
    ///
    /// Those of [`step`](crate::step).
    #[inline(always)]
    #[tactic(auto, unfolding(crate::specs::Stepping::step_of))]
    pub fn advance<L: Ledger>(
        &mut self,
        state: &mut Stepped,
        steps: &mut Steps<L>,
    ) -> Result<bool, DeliverError>
        ensures step { result_map (advanced_to state.new) result ≡
            step_of self.old state.old.context state.old.signal }
        ensures stays { (result ≢ Ok true) → state.new ≡ state.old }
        ensures ticks { TicksAt self.old state.old.context state.old.signal steps.old.number
            steps.new.number }
        ensures same { self.new ≡ self.old }
    {
        // Its regions are laid out, as the image's type says.
        let _ = self.image();
        let address = state.address();
        let Some(added_module) = self.module_asked(&state.context, state.signal) else {
            return Ok(false);
        };
        if !added_module.is_prepared() {
            return self.advance_in_room(state, steps);
        }
        match self.prepared_frame_at(added_module, state, address, steps) {
            Ok(Some(frame)) => {
                if frame.step_in_place(&self.stack, state) {
                    return Ok(true);
                }
                self.advance_by_copy(added_module, state)
            }
            Ok(None) => Ok(false),
            Err(error) => Err(error),
        }
    }

    /// The same of a frame of a prepared module, by a copy of the registers. The frame is looked up
    /// once more, uncounted: what is handed on to a call has to be laid out in memory, for each step.
    #[inline(never)]
    #[tactic(auto, unfolding(crate::specs::Stepping::step_of))]
    pub(crate) fn advance_by_copy(
        &mut self,
        added_module: &AddedModule<'t>,
        state: &mut Stepped,
    ) -> Result<bool, DeliverError>
        requires prepared { is_some added_module.now.table ≡ true }
        requires asked { IsAsked self.old state.old.context state.old.signal added_module.now }
        ensures step { result_map (advanced_to state.new) result ≡
            step_of self.old state.old.context state.old.signal }
        ensures stays { (result ≢ Ok true) → state.new ≡ state.old }
        ensures same { self.new ≡ self.old }
    {
        let mut uncounted = Steps::new(NoLedger);
        match self.prepared_frame(added_module, state, &mut uncounted) {
            Ok(Some(frame)) => {
                self.step_by_copy(state, &frame)?;
                Ok(true)
            }
            Ok(None) => Ok(false),
            Err(error) => Err(error),
        }
    }

    /// The same of a frame of any module, with a room for its row.
    #[inline(never)]
    #[tactic(auto, unfolding(crate::specs::Stepping::step_of))]
    pub(crate) fn advance_in_room<L: Ledger>(
        &mut self,
        state: &mut Stepped,
        steps: &mut Steps<L>,
    ) -> Result<bool, DeliverError>
        ensures step { result_map (advanced_to state.new) result ≡
            step_of self.old state.old.context state.old.signal }
        ensures stays { (result ≢ Ok true) → state.new ≡ state.old }
        ensures ticks { TicksAt self.old state.old.context state.old.signal steps.old.number
            steps.new.number }
        ensures same { self.new ≡ self.old }
    {
        let mut place = None;
        let mut rows = RowRoom::new();
        let found = self.frame_at(state, &mut place, &mut rows, steps);
        match &found {
            Ok(Some(frame)) => {
                self.step_to_caller(state, frame)?;
                Ok(true)
            }
            Ok(None) => Ok(false),
            Err(error) => Err(*error),
        }
    }
}

impl<'s, 't, 'a> Stepper<'s, 't, 'a>
where
    't: 'a,
{
    /// Puts the caller of the frame at a state in the state's place, as [`Stepper::advance`] does, by the
    /// rows that were made before in modules that aren't prepared. A step by such a row counts none, and any
    /// other what [`Stepper::advance`] counts. Where it searches by a program, a row is made in `rows`.
    ///
    /// # Errors
    ///
    /// Those of [`step`](crate::step).
    #[inline(always)]
    pub fn advance_by_made<L: Ledger>(
        &mut self,
        made: &mut MadeRows<'a>,
        state: &mut Stepped,
        rows: &mut RowRoom<'a>,
        steps: &mut Steps<L>,
    ) -> Result<bool, DeliverError>
        requires made { AreMade self.old made.old }
        ensures step { result_map (advanced_to state.new) result ≡
            step_of self.old state.old.context state.old.signal }
        ensures stays { (result ≢ Ok true) → state.new ≡ state.old }
        ensures ticks { RisesWithin self.old 1 steps.old.number steps.new.number }
        ensures same { self.new ≡ self.old }
        ensures made { AreMade self.old made.new }
    {
        if state.context.ra == 0 {
            return Ok(false);
        }
        // Its regions are laid out, as the image's type says.
        let _ = self.image();
        let address = state.address();
        let Some(added_module) = self.module_asked(&state.context, state.signal) else {
            return Ok(false);
        };
        if added_module.is_prepared() {
            return self.advance(state, steps);
        }
        if let Some(kept) = made.find(address) {
            return self.advance_by_row(kept, state);
        }
        self.advance_by_making(added_module, made, state, rows, steps)
    }

    /// The same by a row that was made before at the address.
    fn advance_by_row(
        &mut self,
        kept: &MadeRow<'_>,
        state: &mut Stepped,
    ) -> Result<bool, DeliverError>
        requires returns { state.old.context.ra ≢ 0 }
        requires made { IsMade self.old kept.now }
        requires address { kept.now.address ≡
            address_of_call state.old.context.ra state.old.signal }
        ensures step { result_map (advanced_to state.new) result ≡
            step_of self.old state.old.context state.old.signal }
        ensures stays { (result ≢ Ok true) → state.new ≡ state.old }
        ensures same { self.new ≡ self.old }
    {
        self.step_by_row(kept, state)?;
        Ok(true)
    }

    /// Puts the caller by such a row in the state's place, by a copy of the registers, since a step may
    /// have a fault after it has written some. After a fault the state is as before.
    fn step_by_row(&mut self, kept: &MadeRow<'_>, state: &mut Stepped) -> Result<(), DeliverError>
        ensures caller { (f : DescribedFrame) → IsRowOf kept.now.row f.run →
            kept.now.signal ≡ f.found.fde.cie.letters.signal →
            result_map (λ done. state.new) result ≡ caller self.old.image state.old.context f }
        ensures stays { OnErr result (state.new ≡ state.old) }
        ensures same { self.new ≡ self.old }
    {
        let callee = state.context.copied();
        let row = kept.row.as_ref();
        let left = elf::step_to_caller(&mut self.stack, &callee, &row, kept.signal, state);
        if left.is_err() {
            state.context = callee;
        }
        left
    }

    /// The same of a module that isn't prepared, by a search. The row that is made is kept.
    #[inline(never)]
    #[tactic(auto, unfolding(crate::specs::Stepping::step_of))]
    fn advance_by_making<L: Ledger>(
        &mut self,
        added_module: &AddedModule<'t>,
        made: &mut MadeRows<'a>,
        state: &mut Stepped,
        rows: &mut RowRoom<'a>,
        steps: &mut Steps<L>,
    ) -> Result<bool, DeliverError>
        requires unprepared { is_some added_module.now.table ≡ false }
        requires asked { IsAsked self.old state.old.context state.old.signal added_module.now }
        requires made { AreMade self.old made.old }
        ensures step { result_map (advanced_to state.new) result ≡
            step_of self.old state.old.context state.old.signal }
        ensures stays { (result ≢ Ok true) → state.new ≡ state.old }
        ensures ticks { TicksAt self.old state.old.context state.old.signal steps.old.number
            steps.new.number }
        ensures same { self.new ≡ self.old }
        ensures made { AreMade self.old made.new }
    {
        let mut place = None;
        match self.searched_frame(added_module, state, &mut place, rows, steps) {
            Ok(Some(frame)) => {
                keep_row(made, state, &frame);
                self.step_to_caller(state, &frame)?;
                Ok(true)
            }
            Ok(None) => Ok(false),
            Err(error) => Err(error),
        }
    }
}

/// Keeps the row of a frame that was found at a state, where a description was.
fn keep_row<'a>(made: &mut MadeRows<'a>, state: &Stepped, frame: &FoundFrame<'_, 'a>)
    ensures { (space : SpaceValue) →
        GivesFrameAt (Ok (Some frame.now)) (frame_of space state.now.context state.now.signal) →
        AreMade space made.old → AreMade space made.new }
{
    if let FoundFrame::Searched(searched) = frame {
        made.keep(MadeRow {
            address: state.address(),
            signal: searched.found.fde.is_signal_trampoline(),
            row: searched.row.to_row(),
        });
    }
}

fn exact_step<L: Ledger>(
    space: &Space<'_>,
    context: &Context,
    interrupted: bool,
    steps: &mut Steps<L>,
) -> Result<Option<Stepped>, DeliverError>
    ensures exact { result ≡ step_of space.now context.now interrupted }
    ensures apart { AreApart 0 space.now.modules }
    ensures laid_out { IsLaidOut 0 space.now.image }
    ensures word { context.now.ra < 2 ^ 64 }
    ensures ticks { TicksAt space.now context.now interrupted steps.old.number steps.new.number }
{
    // No two of its modules share an address, as a space's type says.
    let _ = space.image();
    let own = space.over_own_image();
    let mut stepper = Stepper::over(&own, context.registers[RSP]);
    let mut next = Stepped {
        context: context.copied(),
        signal: interrupted,
    };
    if stepper.advance(&mut next, steps)? {
        Ok(Some(next))
    } else {
        Ok(None)
    }
}

/// The caller of the frame whose registers `context` holds, `None` at the end of the stack.
///
/// The address asked is `ra`, less one unless the frame was `interrupted`: after a call the
/// instruction that called is the one before, which may be the last of its function. The module
/// that holds the address is asked by its format: an ELF module for a description, by which the
/// caller is found; a Mach-O module for a function in its section of compact unwinding, by the
/// function's opcode, or by the description to which that points; a PE module by the unwind record
/// that covers the address, and as a leaf where none does. The stack ends where `ra` is 0, or where
/// the address is in no module, or no description is found for it in an ELF module, since none
/// contains it or an entry before can't be read, or no function in a Mach-O module. A prepared
/// module is asked by its index, and answers the same. Steps are counted in the search of an index,
/// one at least, and in that of a header's table, at most as many as its length has binary digits,
/// and none in a scan.
///
/// # Errors
///
/// `Table` where the row of the description can't be read or run, an expression has no value, or a
/// register isn't the machine's; `Unmapped` with the address of a stack slot, or of a number that
/// an expression reads, that isn't wholly mapped. The first fault counts: those of the row, then
/// that of the canonical frame address, and then that of the lowest register.
///
/// `MachO` where a section of compact unwinding, or what a look-up in it comes to, can't be read;
/// `CompactForm` where the function's opcode gives no caller; `PeInfo` where a function table, an
/// unwind record, or code that may be an epilog's can't be read; `ChainLimit` where more than 32
/// records are chained to the first. Handlers of these formats aren't looked at.
pub fn step<L: Ledger>(
    space: &Space<'_>,
    context: &Context,
    interrupted: bool,
    steps: &mut Steps<L>,
) -> Result<Option<Stepped>, DeliverError>
    ensures exact { result ≡ step_of space.now context.now interrupted }
    ensures caller { (next : Stepped) → (result ≡ Ok (Some next)) ↔
        GivesCaller space.now context.now interrupted next }
    ensures ends { (result ≡ Ok None) ↔ EndsAt space.now context.now interrupted }
    ensures table { (e : Fault) → (result ≡ Err (DeliverError.Table e)) ↔
        FaultsAt space.now context.now interrupted e }
    ensures unmapped { (a : ℕ) → result ≡ Err (DeliverError.Unmapped a) →
        word_at space.now.image a ≡ None }
    ensures reads { (a : ℕ) → (result ≡ Err (DeliverError.Unmapped a)) ↔
        ReadIsUnmapped space.now context.now interrupted a }
    // Those of the other formats come each exactly for its cause, and none of a handler.
    ensures macho { (e : MachoFault) → (result ≡ Err (DeliverError.MachO e)) ↔
        IsUnreadSection space.now context.now interrupted e }
    ensures compact_form { (result ≡ Err DeliverError.CompactForm) ↔
        IsWithoutForm space.now context.now interrupted }
    ensures pe_info { (result ≡ Err DeliverError.PeInfo) ↔
        IsUnreadInfo space.now context.now interrupted }
    ensures chain_limit { (result ≡ Err DeliverError.ChainLimit) ↔
        IsChainedTooLong space.now context.now interrupted }
    // A call of a function that its module describes, of whatever format that is, is undone.
    ensures undone { (functions : List Function) (s : State) (call : Call) →
        (calls : IsDescribedCall space.now.image (formats_of space.now) functions s call) →
        Shows (columns_of context.now) s → IsFalse interrupted →
        UndoneIn calls.lies.home result (columns_of context.now) call.caller }
    // So is one that was stopped at an instruction: in the body of a function of whatever format,
    // in the prologue of one of an ELF or a PE module, or in an epilog of one of a PE module.
    ensures stopped { (functions : List Function) (s : State) (call : Call) →
        (stop : IsDescribedStop space.now.image (formats_of space.now) functions s call) →
        Shows (columns_of context.now) s → IsTrue interrupted →
        UndoneIn stop.lies.home result (columns_of context.now) call.caller }
    // At any address of an ELF module, asked after a call or where the state was interrupted, that
    // of the caller from whose state it stands with facts, where the module's tables say them there.
    ensures known { (s : State) (frame : FactFrame) →
        IsFactLink (process_of space.now) interrupted s frame → IsState frame.caller →
        Shows (columns_of context.now) s →
        Undone result (columns_of context.now) frame.caller }
    // From a signal's frame, which the tables say there, the state that the signal interrupted: the
    // words in which the kernel put its registers are its own, and it is marked as interrupted.
    ensures signal { (s t : State) (frame : SignalFrame) →
        IsSignalLink (process_of space.now) interrupted s frame t →
        Shows (columns_of context.now) s → Interrupted result t }
    // A search takes as many steps at most as there are binary digits in the length of what is
    // searched: the index of a prepared module, or else the table of a header.
    ensures ticks { RisesBySearch (searched_at space.now context.now interrupted) steps.old.number
        steps.new.number }
    // The index of a prepared module is searched, and one step at least is counted.
    ensures prepared { let n = prepared_len space.now (address_of_call context.now.ra interrupted)
        in
        context.now.ra ≢ 0 → 0 < n → AreFewSteps n steps.old.number steps.new.number }
    // None is counted where an unprepared module names its frame table itself, or is of another
    // format.
    ensures scanned { IsScannedAt space.now context.now interrupted →
        steps.new.number ≡ steps.old.number }
{
    exact_step(space, context, interrupted, steps)
}
