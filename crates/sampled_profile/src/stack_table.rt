// Distinct stacks by their functions, with the number of the samples that show each.
ghost use Rattle.std.specs.Prelude.{◌≡◌, ◌+◌, ◌<◌, ◌^◌, ◌++◌, ◌∷◌, [], IfOk, List, OnOk, ℕ, true};
ghost use Rattle.std.specs.Option.{option_map};
ghost use Rattle.sampled_profile.specs.Tables.{CountsOneMore, shown_frames, shown_name, total_of};
ghost use Rattle.sampled_profile.specs.Ends.{returns_of};
ghost use Rattle.sampled_profile.specs.Frames.{frame_place, frames_of, is_signal, places_of};
ghost use Rattle.sampled_profile.specs.Walks.{marked_walk};

use crate::stack_end::StackEnd;
use crate::texts::address_inside;
use crate::walks::WalkMarks;
use stack_deliver::{FrameCache, Room};
use stack_steps::DescribedFunction;
use std::alloc::{AllocError, Global};
use std::collections::HashMap;

/// Where a frame is by its function, by the address asked of it.
pub(crate) fn frame_place(asked: u64, function: Option<DescribedFunction>) -> u64
    ensures { result ≡ frame_place asked function }
{
    match function {
        Some(function) => function.start,
        None => asked,
    }
}

/// Whether a frame is a signal's.
pub(crate) fn is_signal(function: Option<DescribedFunction>) -> bool
    ensures { result ≡ is_signal function }
{
    match function {
        Some(function) => function.signal,
        None => false,
    }
}

/// The stack of a sample: the name of its process, where the functions of its frames begin, the
/// innermost first, why there are no more, and whether popped registers were kept.
#[derive(PartialEq, Eq, Hash, Drop)]
pub(crate) struct SampledStack {
    named: bool,
    name: Vec<u8>,
    end: StackEnd,
    popped: bool,
    places: Vec<u64>,
}

impl SampledStack {
    /// No frames. It takes no memory yet.
    pub(crate) fn new(alloc: Global) -> SampledStack {
        SampledStack {
            named: false,
            name: Vec::new(alloc),
            end: StackEnd::Outermost,
            popped: false,
            places: Vec::new(alloc),
        }
    }

    /// The name of the process.
    pub(crate) fn name(&self) -> Option<&[u8]>
        ensures { option_map (λ n. n.now) result ≡ shown_name self.now }
    {
        if self.named { Some(&self.name) } else { None }
    }

    /// Why there are no more frames.
    pub(crate) fn end(&self) -> StackEnd
        ensures { result ≡ self.now.end }
    {
        self.end
    }

    /// Whether registers were kept that were popped where the thread was interrupted.
    pub(crate) fn popped(&self) -> bool
        ensures { result ≡ self.now.popped }
    {
        self.popped
    }

    /// Where its frames are, the innermost first.
    pub(crate) fn places(&self) -> &[u64]
        ensures { result.now ≡ self.now.places.items }
    {
        &self.places
    }

    /// Puts the frame at a return address last, unless that is 0, and answers whether its caller was
    /// interrupted where it stands.
    fn push_frame(
        &mut self,
        cache: &mut FrameCache<'_, '_>,
        interrupted: bool,
        address: u64,
    ) -> Result<bool, AllocError>
        ensures placed { IfOk result (λ signal. (outer : List ℕ) →
            self.new.places.items ++ places_of cache.old signal outer ≡
            self.old.places.items ++ places_of cache.old interrupted (address ∷ outer)) }
        ensures same { cache.new ≡ cache.old }
        ensures name { shown_name self.new ≡ shown_name self.old }
        ensures end { self.new.end ≡ self.old.end }
        ensures popped { self.new.popped ≡ self.old.popped }
    {
        if address == 0 {
            return Ok(false);
        }
        let asked = address_inside(address, interrupted);
        let function = cache.described_function(asked);
        self.places.push(frame_place(asked, function))?;
        Ok(is_signal(function))
    }

    /// Puts the frames of the states in a room, at the first of which the thread was interrupted, in
    /// the place of its own.
    fn set_frames(&mut self, cache: &mut FrameCache<'_, '_>, room: &Room) -> Result<(), AllocError>
        ensures places { OnOk result (self.new.places.items ≡
            places_of cache.old true (returns_of room.now.visited)) }
        ensures same { cache.new ≡ cache.old }
        ensures name { shown_name self.new ≡ shown_name self.old }
        ensures end { self.new.end ≡ self.old.end }
        ensures popped { self.new.popped ≡ self.old.popped }
    {
        self.places.clear();
        let mut interrupted = true;
        for i in 0..room.visited_len() {
            let state = room.visited(i).unwrap();
            interrupted = self.push_frame(cache, interrupted, state.ra)?;
        }
        Ok(())
    }

    /// Puts the name of a process in the place of its own.
    fn set_name(&mut self, name: Option<&[u8]>) -> Result<(), AllocError>
        ensures name { OnOk result (shown_name self.new ≡ option_map (λ n. n.now) name.entry) }
        ensures end { self.new.end ≡ self.old.end }
        ensures popped { self.new.popped ≡ self.old.popped }
    {
        self.name.clear();
        match name {
            Some(name) => {
                self.named = true;
                self.name.extend_from_slice(name)
            }
            None => {
                self.named = false;
                Ok(())
            }
        }
    }

    /// Becomes the stack of a thread of the process of this name that the states in a room show, by the
    /// functions that the modules of a cache's space describe.
    ///
    /// # Errors
    ///
    /// `AllocError` where memory ran out.
    pub(crate) fn set(
        &mut self,
        name: Option<&[u8]>,
        marks: WalkMarks,
        cache: &mut FrameCache<'_, '_>,
        room: &Room,
    ) -> Result<(), AllocError>
        ensures name { OnOk result (shown_name self.new ≡ option_map (λ n. n.now) name.entry) }
        ensures frames { OnOk result (shown_frames self.new ≡
            frames_of cache.old (marked_walk room.now.visited marks)) }
        ensures same { cache.new ≡ cache.old }
    {
        self.set_name(name)?;
        self.end = marks.end;
        self.popped = marks.popped;
        self.set_frames(cache, room)
    }

    /// The same stack once more.
    fn copied(&self, alloc: Global) -> Result<SampledStack, AllocError>
        ensures named { IfOk result (λ stack. stack.named ≡ self.now.named) }
        ensures name { IfOk result (λ stack. stack.name.items ≡ self.now.name.items) }
        ensures end { IfOk result (λ stack. stack.end ≡ self.now.end) }
        ensures popped { IfOk result (λ stack. stack.popped ≡ self.now.popped) }
        ensures places { IfOk result (λ stack. stack.places.items ≡ self.now.places.items) }
    {
        Ok(SampledStack {
            named: self.named,
            name: Vec::from_slice(alloc, &self.name)?,
            end: self.end,
            popped: self.popped,
            places: Vec::from_slice(alloc, &self.places)?,
        })
    }
}

/// Distinct stacks, each with the number of the samples that show it.
#[derive(Drop)]
pub(crate) struct StackTable {
    alloc: Global,
    pub(crate) counts: HashMap<SampledStack, u64>,
}

impl StackTable {
    /// No stacks. It takes no memory yet.
    pub(crate) fn new(alloc: Global) -> StackTable
        ensures { result.counts.entries ≡ [] }
    {
        StackTable {
            alloc,
            counts: HashMap::new(alloc),
        }
    }

    /// Counts a sample more that shows a stack. No memory is taken where it was shown before.
    ///
    /// # Errors
    ///
    /// `AllocError` where memory ran out.
    pub(crate) fn count(&mut self, stack: &SampledStack) -> Result<(), AllocError>
        requires { total_of self.old.counts.entries + 1 < 2 ^ 64 }
        ensures { OnOk result
            (CountsOneMore stack.now self.old.counts.entries self.new.counts.entries) }
    {
        if let Some(count) = self.counts.get_mut(stack) {
            *count += 1;
            return Ok(());
        }
        let key = stack.copied(self.alloc)?;
        self.counts.insert(key, 1)?;
        Ok(())
    }
}
