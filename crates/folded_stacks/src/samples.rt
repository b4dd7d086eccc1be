// Samples: where threads were stopped.
ghost use Rattle.std.specs.Prelude.{◌≡◌, ◌≢◌, ◌==◌, ◌↔◌, ◌≤◌, ◌++◌, ◌∷◌, [], false, true, length, Ok};

use stack_deliver::Context;
use std::alloc::{AllocError, Global};
use std::marker::Model;

/// The most samples that are held.
const MOST: usize = 65_536;

/// A thread that was stopped.
#[derive(Clone, Copy, Debug, PartialEq, Eq)]
pub struct Sample {
    /// The registers of its innermost frame.
    pub start: Context,
    /// Whether it stands before its instruction and not after a call.
    pub interrupted: bool,
}

/// Samples in the order in which they were added, at most 65,536.
///
/// Contracts see them in this order.
#[derive(Drop)]
pub struct Samples {
    samples: Vec<Sample>,
}

impl Model for Samples {
    ghost use Rattle.std.specs.Prelude.{◌≤◌, List, length};
    ghost use Rattle.folded_stacks.specs.declared.samples.Sample.{Sample};

    ghost Value = { List Sample };

    ghost view = { λ s. s.samples.items };

    ghost invariant = { λ s. length s.samples.items ≤ 65536 };
}

impl Samples {
    /// No samples. It takes no memory yet.
    pub fn new(alloc: Global) -> Samples
        ensures { result ≡ [] }
    {
        Samples {
            samples: Vec::new(alloc),
        }
    }

    /// How many samples are held.
    pub fn len(&self) -> usize
        ensures count { result ≡ length self.now }
        ensures most { result ≤ 65536 }
    {
        self.samples.len()
    }

    /// Whether no sample is held.
    pub fn is_empty(&self) -> bool
        ensures { result ≡ (length self.now == 0) }
    {
        self.samples.is_empty()
    }

    /// The samples in their order.
    pub fn as_slice(&self) -> &[Sample]
        ensures value { result.now ≡ self.now }
        ensures most { length result.now ≤ 65536 }
    {
        &self.samples
    }

    /// Adds a thread that was stopped. `interrupted` says whether it stands before its instruction
    /// and not after a call. It answers whether there was a place for it: nothing changes where
    /// 65,536 samples are held.
    ///
    /// # Errors
    ///
    /// `AllocError` where memory ran out; the samples are then as before.
    pub fn add(&mut self, start: Context, interrupted: bool) -> Result<bool, AllocError>
        ensures added { result ≡ Ok true →
            self.new ≡ self.old ++ record { start = start; interrupted = interrupted } ∷ [] }
        ensures full { (result ≡ Ok false) ↔ (length self.old ≡ 65536) }
        ensures unchanged { result ≢ Ok true → self.new ≡ self.old }
    {
        if self.samples.len() >= MOST {
            return Ok(false);
        }
        self.samples.push(Sample { start, interrupted })?;
        Ok(true)
    }
}
