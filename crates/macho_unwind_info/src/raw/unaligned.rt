// Little-endian numbers that lie at any address.
ghost use Rattle.std.specs.Prelude.{◌≡◌, ◌≤◌};
ghost use Rattle.macho_unwind_info.specs.Unaligned.{u32_number, u16_number, u32_of_number};
ghost use Rattle.macho_unwind_info.specs.Unaligned.{u16_of_number};

use memory_image::Record;
use std::fmt;

/// A little-endian `u32` at any alignment. Equality, order and hash are those of its four bytes.
#[derive(Clone, Copy, Default, PartialEq, Eq, PartialOrd, Ord, Hash)]
pub struct U32([u8; 4]);

impl From<u32> for U32 {
    // the bytes of the number, and the number is theirs
    ghost from_gives = { λ n word. (word ≡ u32_of_number n) × (u32_number word ≡ n) };

    fn from(n: u32) -> U32 {
        U32(n.to_le_bytes())
    }
}

impl From<U32> for u32 {
    // the number of the bytes, and the bytes are its
    ghost from_gives = { λ word n. (n ≡ u32_number word) × (u32_of_number n ≡ word) };

    fn from(word: U32) -> u32 {
        u32::from_le_bytes(word.0)
    }
}

impl fmt::Debug for U32 {
    fn fmt<W: fmt::Write>(&self, f: &mut fmt::Formatter<W>) -> fmt::Result {
        fmt::Debug::fmt(&u32::from(*self), f)
    }
}

impl Record for U32 {
    ghost use Rattle.macho_unwind_info.specs.Unaligned.{u32_in, u32_keeps_all};
    ghost use Rattle.std.proofs.Common.{lit≤};

    const SIZE: usize = 4;

    ghost SIZE = { 4 };

    ghost value_of = { u32_in };

    fn read(bytes: &[u8]) -> U32 {
        // Copied at once, so that a part of the number is read by one read, too.
        let mut word = [0; 4];
        word.copy_from_slice(&bytes[..4]);
        U32(word)
    }

    ghost has_size = { lit≤ tt };

    ghost keeps_all = { u32_keeps_all };
}

/// A little-endian `u16` at any alignment. Equality, order and hash are those of its two bytes.
#[derive(Clone, Copy, Default, PartialEq, Eq, PartialOrd, Ord, Hash)]
pub struct U16([u8; 2]);

impl From<u16> for U16 {
    // the bytes of the number, and the number is theirs
    ghost from_gives = { λ n word. (word ≡ u16_of_number n) × (u16_number word ≡ n) };

    fn from(n: u16) -> U16 {
        U16(n.to_le_bytes())
    }
}

impl From<U16> for u16 {
    // the number of the bytes, and the bytes are its
    ghost from_gives = { λ word n. (n ≡ u16_number word) × (u16_of_number n ≡ word) };

    fn from(word: U16) -> u16 {
        u16::from_le_bytes(word.0)
    }
}

impl fmt::Debug for U16 {
    fn fmt<W: fmt::Write>(&self, f: &mut fmt::Formatter<W>) -> fmt::Result {
        fmt::Debug::fmt(&u16::from(*self), f)
    }
}

impl Record for U16 {
    ghost use Rattle.macho_unwind_info.specs.Unaligned.{u16_in, u16_keeps_all};
    ghost use Rattle.std.proofs.Common.{lit≤};

    const SIZE: usize = 2;

    ghost SIZE = { 2 };

    ghost value_of = { u16_in };

    fn read(bytes: &[u8]) -> U16 {
        U16([bytes[0], bytes[1]])
    }

    ghost has_size = { lit≤ tt };

    ghost keeps_all = { u16_keeps_all };
}
