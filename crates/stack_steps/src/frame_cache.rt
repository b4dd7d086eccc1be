// Rows that were found at addresses, kept for look-ups that repeat.
ghost use Rattle.std.specs.Prelude.{◌≡◌, ◌≢◌, ◌<◌, ◌≤◌, ℕ, IfOk, IfSome, IsNone, List, Ok, length, true};
ghost use Rattle.std.specs.List.{AllByRecursion};
ghost use Rattle.memory_image.specs.Image.{IsLaidOut, Span};
ghost use Rattle.memory_image.specs.Results.{result_map};
ghost use Rattle.unwind_definitions.specs.LanguageSearch.{address_of_call};
ghost use Rattle.eh_frame.specs.Index.{AreFewSteps};
ghost use Rattle.fde_finders.specs.declared.custom.FrameInfo.{FrameInfo as Tables};
ghost use Rattle.fde_finders.specs.Named.{found_by};
ghost use Rattle.stack_steps.specs.AddedModule.{IsTableOf};
ghost use Rattle.stack_steps.specs.Caching.{Finds, GivesRowDue, IsFree, IsHolder, Keeps};
ghost use Rattle.stack_steps.specs.Elf.{frame_by};
ghost use Rattle.stack_steps.specs.Functions.{described_function};
ghost use Rattle.stack_steps.specs.Growing.{Grows, IsSeenOver, advanced_to, over_image};
ghost use Rattle.stack_steps.specs.ModulesAsked.{IsAsked};
ghost use Rattle.stack_steps.specs.Stepping.{frame_of, step_of};
ghost use Rattle.stack_steps.specs.Ticking.{TicksAt};

use crate::elf;
use crate::error::DeliverError;
use crate::functions::DescribedFunction;
use crate::grown::GrownSpace;
use crate::prepared::PreparedTable;
use crate::space::{AddedModule, Space};
use crate::stepping::Stepper;
use eh_frame::RowRef;
use format_frames::Stepped;
use memory_image::{Ledger, MemoryImage, Steps};
use std::alloc::{AllocError, Global};
use std::marker::Model;

// For how many rows a cache has places.
const PLACES: usize = 256;

// 2^64 by the golden ratio: each bit of a word has its part in the high bits of its product with this.
const SPREAD: u64 = 0x9e37_79b9_7f4a_7c15;

// The place for the row of an address. Those that lie close together mostly have places of their own.
#[inline(always)]
fn place_of(address: u64) -> usize
    ensures { result < 256 }
{
    ((address.wrapping_mul(SPREAD) >> 32) % 256) as usize
}

/// The row that was found at an address of a prepared module.
#[derive(Drop)]
pub(crate) struct CachedRow<'c> {
    address: u64,
    // where the function of its description begins
    start: u64,
    // whether its description is of a signal's frame
    signal: bool,
    row: RowRef<'c, 'c>,
}

/// Places for rows: that of an address is known by its number alone, and holds the row that was kept
/// there last.
///
/// A row is kept where two searches that come to its place, one after the other, are for its address,
/// so that addresses which are asked once cost no copy, and take no place from others.
#[derive(Drop)]
struct CachedRows<'c> {
    places: Vec<Option<CachedRow<'c>>>,
    // for each place the address that was searched for last
    searched: Vec<u64>,
}

impl<'c> Model for CachedRows<'c> {
    ghost use Rattle.std.specs.Prelude.{◌≡◌, List, Option, length};
    ghost use Rattle.stack_steps.specs.declared.frame_cache.CachedRow.{CachedRow};

    ghost Value = { List (Option CachedRow) };

    ghost view = { λ r. r.places.items };

    ghost invariant = { λ r. (length r.places.items ≡ 256) × (length r.searched.items ≡ 256) };
}

impl<'c> CachedRows<'c> {
    // All places free.
    fn new(alloc: Global) -> Result<CachedRows<'c>, AllocError>
        ensures { IfOk result (λ rows. AllByRecursion IsFree rows) }
    {
        let mut places = Vec::with_capacity(alloc, PLACES)?;
        let mut searched = Vec::with_capacity(alloc, PLACES)?;
        for _ in 0..PLACES {
            places.push(None)?;
            searched.push(0)?;
        }
        Ok(CachedRows { places, searched })
    }

    // The row that is kept of an address.
    #[inline(always)]
    fn find(&self, address: u64) -> Option<&CachedRow<'c>>
        ensures { IfSome result (λ row. Finds self.now address row.now) }
    {
        match &self.places[place_of(address)] {
            Some(row) if row.address == address => Some(row),
            _ => None,
        }
    }

    // Keeps a row in the place for its address, if the search before this one that met the place was for
    // the same address.
    #[inline(always)]
    fn keep(&mut self, row: CachedRow<'c>)
        ensures { Keeps self.old row.entry self.new }
    {
        let place = place_of(row.address);
        if self.searched[place] == row.address {
            self.places[place] = Some(row);
        } else {
            self.searched[place] = row.address;
        }
    }
}

/// Rows that were found at addresses of a space, so that a step at an address whose row is kept needs
/// no search, where its CFA is a register and an offset and its registers lie close below that, in the
/// region of the stack that was read last, as mostly. A row is kept where two searches that come to
/// its place, one after the other, are for its address, and the module is prepared.
///
/// It has a fixed number of places, made once, and serves stack after stack over the space, each over
/// an image of its own. What it keeps is what a search answers, so that no step depends on it.
///
/// Contracts see the space.
#[derive(Drop)]
pub struct FrameCache<'c, 't> {
    space: &'c Space<'t>,
    rows: CachedRows<'c>,
    // where the module that was searched last stands in the order of adding
    near: usize,
}

impl<'c, 't> Model for FrameCache<'c, 't> {
    ghost use Rattle.stack_steps.specs.Caching.{AreCached};
    ghost use Rattle.stack_steps.specs.Modules.{SpaceValue};

    ghost Value = { SpaceValue };

    ghost view = { λ c. c.space.now };

    ghost invariant = { λ c. AreCached c.space.now c.rows };
}

impl<'c, 't> FrameCache<'c, 't> {
    /// A cache for a space, in which no row is kept yet.
    ///
    /// # Errors
    ///
    /// Where memory runs out.
    pub fn new(alloc: Global, space: &'c Space<'t>) -> Result<FrameCache<'c, 't>, AllocError>
        ensures { IfOk result (λ cache. cache ≡ space.now) }
    {
        Ok(FrameCache {
            space,
            rows: CachedRows::new(alloc)?,
            near: 0,
        })
    }

    /// The space.
    pub fn space(&self) -> &'c Space<'t>
        ensures { result.now ≡ self.now }
    {
        self.space
    }

    /// The space over an image that maps what the space's own does.
    pub fn over<'i, 'a>(&self, image: &'i MemoryImage<'a>) -> GrownSpace<'i, 't, 'a>
    where
        'c: 'i,
        requires { Grows self.now.image image.now }
        ensures is { result ≡ over_image self.now image.now }
        ensures seen { IsSeenOver self.now result }
    {
        GrownSpace::new(self.space, image)
    }

    /// Puts the caller of the frame at a state in the state's place, as [`Stepper::advance`] does, and
    /// answers whether there is one. At the end of the stack and after a fault the state is as before.
    /// The stepper goes over the cache's space.
    ///
    /// A step by a row that is kept counts one step. Where the row's CFA isn't a register and an offset,
    /// or its registers don't lie close below that in the region of the stack that was read last, it is
    /// searched for as if none were kept.
    ///
    /// # Errors
    ///
    /// Those of [`step`](crate::step).
    #[inline(always)]
    pub fn advance<'a, L: Ledger>(
        &mut self,
        stepper: &mut Stepper<'_, 't, 'a>,
        state: &mut Stepped,
        steps: &mut Steps<L>,
    ) -> Result<bool, DeliverError>
    where
        't: 'a,
        requires over { IsSeenOver self.old stepper.old }
        ensures step { result_map (advanced_to state.new) result ≡
            step_of stepper.old state.old.context state.old.signal }
        ensures stays { (result ≢ Ok true) → state.new ≡ state.old }
        ensures ticks { TicksAt stepper.old state.old.context state.old.signal steps.old.number
            steps.new.number }
        ensures same { self.new ≡ self.old }
        ensures stepper { stepper.new ≡ stepper.old }
    {
        if state.context.ra == 0 {
            return Ok(false);
        }
        // Its regions are laid out, as the image's type says.
        let _ = stepper.image();
        let address = state.address();
        let stack = stepper.stack();
        if let Some(cached) = self.rows.find(address) {
            if elf::step_in_place(stack, &cached.row, cached.signal, state) {
                steps.tick();
                return Ok(true);
            }
        }
        self.advance_by_search(stepper, state, address, steps)
    }

    /// The same by a search. The row that it finds is kept where the last search that came to its place
    /// was for its address, too.
    #[inline(always)]
    fn advance_by_search<'a, L: Ledger>(
        &mut self,
        stepper: &mut Stepper<'_, 't, 'a>,
        state: &mut Stepped,
        address: u64,
        steps: &mut Steps<L>,
    ) -> Result<bool, DeliverError>
    where
        't: 'a,
        requires over { IsSeenOver self.old stepper.old }
        requires returns { state.old.context.ra ≢ 0 }
        requires address { address ≡ address_of_call state.old.context.ra state.old.signal }
        ensures step { result_map (advanced_to state.new) result ≡
            step_of stepper.old state.old.context state.old.signal }
        ensures stays { (result ≢ Ok true) → state.new ≡ state.old }
        ensures ticks { TicksAt stepper.old state.old.context state.old.signal steps.old.number
            steps.new.number }
        ensures same { self.new ≡ self.old }
        ensures stepper { stepper.new ≡ stepper.old }
    {
        // Its regions are laid out, as the image's type says.
        let _ = stepper.image();
        let Some(added_module) = self.holder_at(stepper, state, address) else {
            return Ok(false);
        };
        let Some(shared) = &added_module.table else {
            return stepper.advance_in_room(state, steps);
        };
        match found_row(shared.table(), address, steps) {
            Ok(Some(cached)) => {
                let stack = stepper.stack();
                let stepped = elf::step_in_place(stack, &cached.row, cached.signal, state);
                self.rows.keep(cached);
                if stepped {
                    return Ok(true);
                }
                stepper.advance_by_copy(added_module, state)
            }
            Ok(None) => Ok(false),
            Err(error) => Err(error),
        }
    }

    /// The function that is described at an address of the space, as [`Space::described_function`]
    /// answers. Where a row is kept, nothing is searched.
    #[inline(always)]
    pub fn described_function(&mut self, address: u64) -> Option<DescribedFunction>
        ensures function { result ≡ described_function self.old address }
        ensures same { self.new ≡ self.old }
    {
        // Its regions are laid out, as the image's type says.
        let _ = self.space.image();
        match self.rows.find(address) {
            Some(cached) => Some(DescribedFunction {
                start: cached.start,
                signal: cached.signal,
            }),
            None => self.space.described_near(address, &mut self.near),
        }
    }

    /// The module that holds the address asked at a state.
    #[inline(always)]
    fn holder_at<'a>(
        &mut self,
        stepper: &Stepper<'_, 't, 'a>,
        state: &Stepped,
        address: u64,
    ) -> Option<&'c AddedModule<'t>>
    where
        't: 'a,
        requires over { IsSeenOver self.old stepper.now }
        requires returns { state.now.context.ra ≢ 0 }
        requires address { address ≡ address_of_call state.now.context.ra state.now.signal }
        ensures holds { IfSome result (λ added_module.
            IsHolder self.old address added_module.now) }
        ensures asked { IfSome result (λ added_module.
            IsAsked stepper.now state.now.context state.now.signal added_module.now) }
        ensures ends { IsNone result →
            frame_of stepper.now state.now.context state.now.signal ≡ Ok None }
        ensures unsearched { (n : ℕ) → IsNone result →
            TicksAt stepper.now state.now.context state.now.signal n n }
        ensures same { self.new ≡ self.old }
    {
        self.space.added_near(address, &mut self.near)
    }
}

/// The row at an address of a prepared module, by the index of its frame table.
#[inline(always)]
fn found_row<'f, 't, L: Ledger>(
    table: &'f PreparedTable<'t>,
    address: u64,
    steps: &mut Steps<L>,
) -> Result<Option<CachedRow<'f>>, DeliverError>
    ensures row { (image : List Span) (tables : Tables) → IsLaidOut 0 image →
        IsTableOf image tables table.now →
        GivesRowDue result (frame_by address (found_by tables image address)) }
    ensures address { IfOk result (λ found. IfSome found (λ row. row.address ≡ address)) }
    ensures ticks { AreFewSteps (length table.now.index.functions) steps.old.number
        steps.new.number }
{
    let Some(frame) = table.index.frame(address, steps) else {
        return Ok(None);
    };
    let start = frame.fde().initial_address();
    let signal = frame.is_signal_trampoline();
    match frame.into_row() {
        Ok(row) => Ok(Some(CachedRow {
            address,
            start,
            signal,
            row,
        })),
        Err(fault) => Err(DeliverError::Table(fault)),
    }
}
