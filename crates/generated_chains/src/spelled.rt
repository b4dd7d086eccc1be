// Numbers in bytes.
ghost use Rattle.std.specs.Prelude.{◌≡◌, ◌++◌, reverse, OnOk};
ghost use Rattle.generated_chains.specs.Spelled.{half, word};
ghost use Rattle.generated_chains.specs.Tables.{relative};

use std::alloc::AllocError;

/// Puts the four bytes of a number last, the lowest first.
#[tactic(auto, unfolding(crate::specs::Spelled::half))]
pub fn put_u32(bytes: &mut Vec<u8>, n: u32) -> Result<(), AllocError>
    ensures { OnOk result (bytes.new.items ≡ bytes.old.items ++ half n) }
{
    bytes.extend_from_slice(&n.to_le_bytes())
}

/// Puts four bytes last that lead from one address to another.
pub fn put_relative(bytes: &mut Vec<u8>, at: u32, to: u32) -> Result<(), AllocError>
    ensures { OnOk result (bytes.new.items ≡ bytes.old.items ++ relative at to) }
{
    put_u32(bytes, to.wrapping_sub(at))
}

/// Puts the eight bytes of a word last, the highest first.
#[tactic(auto, unfolding(crate::specs::Spelled::word))]
pub fn put_word_down(bytes: &mut Vec<u8>, n: u64) -> Result<(), AllocError>
    ensures { OnOk result (bytes.new.items ≡ bytes.old.items ++ reverse (word n)) }
{
    bytes.extend_from_slice(&n.to_be_bytes())
}
