// The user's registers in a sample.
ghost use Rattle.std.specs.Prelude.{◌*◌, ◌≤◌, length, count_ones};

use crate::layout::has_bits;
use memory_image::u64_at;
use unwind_arch::x86_64::Context;

// the number of RIP
const INSTRUCTION_POINTER: u32 = 8;

/// The registers that a thread had in its program, as far as the event asked for them.
#[derive(Clone, Copy, Debug)]
pub struct UserRegisters<'a> {
    pub(crate) abi: u64,
    pub(crate) mask: u64,
    pub(crate) words: &'a [u8],
    ghost whole: { 8 * count_ones mask ≤ length words.now },
}

impl<'a> UserRegisters<'a> {
    ghost use Rattle.std.specs.Prelude.{◌≡◌, ◌<◌};
    ghost use Rattle.perf_data.specs.Registers.{register_of, register_or_zero, context_of};
    ghost use Rattle.perf_data.specs.Views.{register_words};

    /// The form of the program: 1 of 32 bits, 2 of 64 bits.
    pub fn abi(&self) -> u64
        ensures { result ≡ (register_words self.now).abi }
    {
        self.abi
    }

    /// Which registers there are, a bit for each, by the numbers of Linux's `perf_regs.h`.
    pub fn mask(&self) -> u64
        ensures { result ≡ (register_words self.now).mask }
    {
        self.mask
    }

    /// A register by its number in Linux's `perf_regs.h`, which is below 64. `None` where it isn't there.
    pub fn register(&self, number: u32) -> Option<u64>
        requires { number < 64 }
        ensures { result ≡ register_of (register_words self.now) number }
    {
        let bit = 1u64 << number;
        if has_bits(self.mask, bit) {
            let before = (self.mask % bit).count_ones() as usize;
            Some(u64_at(self.words, 8 * before))
        } else {
            None
        }
    }

    fn or_zero(&self, number: u32) -> u64
        requires { number < 64 }
        ensures { result ≡ register_or_zero (register_of (register_words self.now) number) }
    {
        match self.register(number) {
            Some(word) => word,
            None => 0,
        }
    }

    /// The registers by their columns, each 0 where it isn't there.
    pub fn context(&self) -> Context
        ensures { result ≡ context_of (register_words self.now) }
    {
        Context {
            registers: [
                self.or_zero(0),
                self.or_zero(3),
                self.or_zero(2),
                self.or_zero(1),
                self.or_zero(4),
                self.or_zero(5),
                self.or_zero(6),
                self.or_zero(7),
                self.or_zero(16),
                self.or_zero(17),
                self.or_zero(18),
                self.or_zero(19),
                self.or_zero(20),
                self.or_zero(21),
                self.or_zero(22),
                self.or_zero(23),
            ],
            ra: self.or_zero(INSTRUCTION_POINTER),
            mcxsr: 0,
            fcw: 0,
        }
    }
}
