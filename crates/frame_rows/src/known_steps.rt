//! Which bodies of rows instructions were seen to make of others. DWARF 5 section 6.4.2.

ghost use Rattle.std.specs.Prelude.{[], ◌≡◌, ◌↔◌, IfSome, true};
ghost use Rattle.frame_rows.specs.KnownSlots.{FindsStep, IsKnownStep, NotesStep, StayOrFill};

use std::alloc::{AllocError, Global};
use std::marker::Model;
use unwind_arch::Register;

// How many are known at a time: at first, then, and at most. All are powers of two, so that a
// number's last digits name a slot.
const FEW: usize = 32;

const MANY: usize = 1024;

const MOST: usize = 8192;

// 2^64 by the golden ratio: each bit of a word has its part in the high bits of its product with this.
const SPREAD: u64 = 0x9e37_79b9_7f4a_7c15;

/// That an instruction with a register and an offset makes one body of another.
#[derive(Clone, Copy)]
pub(crate) struct KnownStep {
    pub(crate) from: usize,
    pub(crate) register: Register,
    pub(crate) offset: u64,
    pub(crate) to: usize,
}

/// What instructions of one kind make of bodies, by a number that is made of body and operands: the
/// last one of each number.
///
/// Each slot has a step, so that no look has to test for an empty one: where none of its number was
/// noted, it is the step for which room was made.
#[derive(Drop)]
pub(crate) struct KnownSteps {
    slots: Vec<KnownStep>,
    // how many were noted in these
    noted: usize,
}

impl Model for KnownSteps {
    ghost use Rattle.std.specs.Prelude.{List};
    ghost use Rattle.frame_rows.specs.declared.known_steps.KnownStep.{KnownStep};

    ghost Value = { List KnownStep };

    ghost view = { λ k. k.slots.items };
}

impl KnownSteps {
    /// None is known.
    pub(crate) fn new(alloc: Global) -> KnownSteps
        ensures { result ≡ [] }
    {
        KnownSteps {
            slots: Vec::new(alloc),
            noted: 0,
        }
    }

    /// Forgets all, and gives back their memory.
    pub(crate) fn free(&mut self)
        ensures { self.new ≡ [] }
    {
        self.slots.clear();
        self.slots.shrink_to_fit();
        self.noted = 0;
    }

    /// What an instruction with these operands makes of a body, lent, where that is known.
    #[inline(always)]
    pub(crate) fn find(&self, from: usize, register: Register, offset: u64) -> Option<&KnownStep>
        ensures step { IfSome result (λ step. FindsStep self.now from offset step.now) }
        ensures register { IfSome result (λ step. step.now.register.0 ≡ register.0) }
    {
        match self.get(number_of(from, register, offset)) {
            Some(step) if is_for(step, from, offset) && step.register.0 == register.0 => Some(step),
            _ => None,
        }
    }

    /// The same where the instructions of the kind have no register.
    #[inline(always)]
    pub(crate) fn find_offset(&self, from: usize, offset: u64) -> Option<&KnownStep>
        ensures { IfSome result (λ step. FindsStep self.now from offset step.now) }
    {
        match self.get(number_of(from, Register(0), offset)) {
            Some(step) if is_for(step, from, offset) => Some(step),
            _ => None,
        }
    }

    // The step in the slot of a number, lent.
    #[inline(always)]
    fn get(&self, number: usize) -> Option<&KnownStep>
        ensures { IfSome result (λ step. IsKnownStep self.now step.now) }
    {
        let highest = self.slots.len().wrapping_sub(1);
        let index = number & highest;
        if index >= self.slots.len() {
            return None;
        }
        Some(&self.slots[index])
    }

    /// Notes what an instruction makes of a body, in place of another of its number.
    ///
    /// # Errors
    ///
    /// Where memory runs out.
    #[inline(always)]
    pub(crate) fn note(&mut self, step: KnownStep) -> Result<(), AllocError>
        ensures { NotesStep self.old step self.new }
    {
        self.make_room(step)?;
        let highest = self.slots.len().wrapping_sub(1);
        let index = number_of(step.from, step.register, step.offset) & highest;
        if index < self.slots.len() {
            self.slots[index] = step;
            self.noted = self.noted.saturating_add(1);
        }
        Ok(())
    }

    // Makes more room where as many were noted as there is room for, and puts a step into each slot.
    // Those so far are forgotten.
    #[inline(never)]
    fn make_room(&mut self, step: KnownStep) -> Result<(), AllocError>
        ensures { StayOrFill self.old step self.new }
    {
        let count = self.slots.len();
        if self.noted < count || count >= MOST {
            return Ok(());
        }
        self.slots.clear();
        self.noted = 0;
        self.slots.resize(next_count(count), step)
    }
}

// How many slots there are after so many.
fn next_count(count: usize) -> usize {
    if count == 0 {
        FEW
    } else if count == FEW {
        MANY
    } else {
        MOST
    }
}

// Whether it is what an instruction with this offset makes of a body.
#[inline(always)]
fn is_for(step: &KnownStep, from: usize, offset: u64) -> bool
    ensures { (result ≡ true) ↔ ((step.now.from ≡ from) × (step.now.offset ≡ offset)) }
{
    step.from == from && step.offset == offset
}

// A number by which a body and operands are told apart, mostly.
#[inline(always)]
fn number_of(from: usize, register: Register, offset: u64) -> usize {
    let sum = offset ^ ((from as u64) << 32) ^ ((register.0 as u64) << 16);
    (sum.wrapping_mul(SPREAD) >> 48) as usize
}
