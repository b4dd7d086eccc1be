// The words of a command.
ghost use Rattle.std.specs.Prelude.{◌≡◌, ◌++◌, ◌∷◌, [], OnOk, OnErr, map, string_bytes};

use std::alloc::{AllocError, Global};
use std::env;
use std::io::ErrorKind;
use std::marker::Model;

/// The words after the program's name. Contracts see the bytes of each.
#[derive(Drop)]
pub struct Words {
    words: Vec<String>,
}

impl Model for Words {
    ghost use Rattle.std.specs.Prelude.{ℕ, List, map, string_bytes};

    ghost Value = { List (List ℕ) };

    ghost view = { λ w. map (λ word. string_bytes word) w.words.items };
}

impl Words {
    /// No words. It takes no memory yet.
    pub fn new(alloc: Global) -> Words
        ensures { result ≡ [] }
    {
        Words {
            words: Vec::new(alloc),
        }
    }

    /// Puts a word last.
    ///
    /// # Errors
    ///
    /// `AllocError` where memory ran out; the words are then as before.
    pub fn push(&mut self, word: &str) -> Result<(), AllocError>
        ensures pushed { OnOk result (self.new ≡ self.old ++ word.now ∷ []) }
        ensures unchanged { OnErr result (self.new ≡ self.old) }
    {
        let alloc = *self.words.allocator();
        self.words.push(String::from_str(alloc, word)?)?;
        Ok(())
    }

    /// The words in their order.
    pub fn as_slice(&self) -> &[String]
        ensures { map (λ word. string_bytes word) result.now ≡ self.now }
    {
        &self.words
    }
}

/// The words after the program's name. For words that aren't all UTF-8 an empty one stands, which no
/// command names.
///
/// # Errors
///
/// `AllocError` where memory ran out.
pub fn words_of(rt: &HostRuntime) -> Result<Words, AllocError> {
    let mut words = Words::new(rt.alloc());
    match env::args(rt) {
        Ok(list) => {
            for word in list.skip(1) {
                words.push(word.as_str())?;
            }
            Ok(words)
        }
        Err(error) => match error.kind() {
            ErrorKind::OutOfMemory => Err(AllocError),
            _ => {
                words.push("")?;
                Ok(words)
            }
        },
    }
}
