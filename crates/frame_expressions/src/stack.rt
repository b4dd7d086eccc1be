//! The stack that expressions work on. DWARF 5 section 2.5.1.

ghost use Rattle.std.specs.Prelude.{◌≡◌, ◌<◌, ◌∷◌, [], OnErr, IfOk, IfErr};
ghost use Rattle.unwind_definitions.specs.Expressions.{push, pick, after_pop, after_swap};
ghost use Rattle.unwind_definitions.specs.Expressions.{after_rotation, after_change};
ghost use Rattle.unwind_definitions.specs.Expressions.{after_combination, after_division};
ghost use Rattle.frame_expressions.specs.OperationViews.{changed_by, combined_by, divided_by};
ghost use Rattle.frame_expressions.specs.Answers.{Leaves, stack_of};

use crate::operation::{Change, Combination, Division};
use crate::words;
use std::marker::Model;
use unwind_definitions::Error;

// how many words a stack holds
const CAPACITY: usize = 64;

/// A stack of at most 64 words.
///
/// Contracts see its words, the top first.
#[derive(Drop)]
pub(crate) struct Stack {
    words: [u64; CAPACITY],
    length: usize,
}

impl Model for Stack {
    ghost use Rattle.std.specs.Prelude.{ℕ, List, ◌≤◌};
    ghost use Rattle.frame_expressions.specs.Stacked.{words_stacked};

    ghost Value = { List ℕ };

    ghost view = { λ s. words_stacked s.words s.length };

    ghost invariant = { λ s. s.length ≤ 64 };
}

impl Stack {
    ghost use Rattle.std.specs.Prelude.{length, Some};

    /// The stack that an expression begins with.
    pub(crate) fn new(initial: Option<u64>) -> Stack
        ensures { result ≡ stack_of initial }
    {
        let mut words = [0; CAPACITY];
        match initial {
            None => Stack { words, length: 0 },
            Some(word) => {
                words[0] = word;
                Stack { words, length: 1 }
            }
        }
    }

    /// Puts a word on top. After a fault the stack is unspecified.
    pub(crate) fn push(&mut self, word: u64) -> Result<(), Error>
        ensures { Leaves result self.new (push word self.old) }
    {
        if self.length == CAPACITY {
            return Err(Error::StackFull);
        }
        self.words[self.length] = word;
        self.length += 1;
        Ok(())
    }

    /// Takes the top away.
    pub(crate) fn pop(&mut self) -> Result<u64, Error>
        ensures word { IfOk result (λ word. self.old ≡ word ∷ self.new) }
        ensures none { OnErr result (self.old ≡ []) }
        ensures fault { IfErr result (λ e. e ≡ Error.PopWithEmptyStack) }
        ensures room { length self.new < 64 }
    {
        if self.length == 0 {
            return Err(Error::PopWithEmptyStack);
        }
        self.length -= 1;
        Ok(self.words[self.length])
    }

    /// Puts the word that stands `below` words under the top on top.
    pub(crate) fn pick(&mut self, below: u8) -> Result<(), Error>
        ensures { Leaves result self.new (pick below self.old) }
    {
        let below = below as usize;
        if below >= self.length {
            return Err(Error::PopWithEmptyStack);
        }
        let word = self.words[self.length - 1 - below];
        self.push(word)
    }

    /// Takes the top away and doesn't look at it.
    pub(crate) fn discard(&mut self) -> Result<(), Error>
        ensures { Leaves result self.new (after_pop self.old) }
    {
        let _ = self.pop()?;
        Ok(())
    }

    /// Exchanges the top and the second word.
    pub(crate) fn swap(&mut self) -> Result<(), Error>
        ensures { Leaves result self.new (after_swap self.old) }
    {
        let top = self.pop()?;
        let second = self.pop()?;
        self.push(top)?;
        self.push(second)
    }

    /// Makes the top the third word, the second the top, and the third the second.
    pub(crate) fn rotate(&mut self) -> Result<(), Error>
        ensures { Leaves result self.new (after_rotation self.old) }
    {
        let top = self.pop()?;
        let second = self.pop()?;
        let third = self.pop()?;
        self.push(top)?;
        self.push(third)?;
        self.push(second)
    }

    /// Puts another word in the place of the top.
    pub(crate) fn change(&mut self, change: Change) -> Result<(), Error>
        ensures { Leaves result self.new (after_change (changed_by change) self.old) }
    {
        let word = self.pop()?;
        self.push(words::changed_word(change, word))
    }

    /// Puts one word in the place of the second and the top.
    pub(crate) fn combine(&mut self, combination: Combination) -> Result<(), Error>
        ensures { Leaves result self.new (after_combination (combined_by combination) self.old) }
    {
        let top = self.pop()?;
        let second = self.pop()?;
        self.push(words::combined_word(combination, second, top))
    }

    /// Puts a quotient or a remainder in the place of the second word and the top.
    pub(crate) fn divide(&mut self, division: Division) -> Result<(), Error>
        ensures { Leaves result self.new (after_division (divided_by division) self.old) }
    {
        let top = self.pop()?;
        let second = self.pop()?;
        if top == 0 {
            return Err(Error::DivisionByZero);
        }
        self.push(words::divided_word(division, second, top))
    }
}
