// Rows that were made in modules that aren't prepared, kept for look-ups that repeat in a walk.
ghost use Rattle.std.specs.Prelude.{◌≡◌, ◌<◌, IfOk, IfSome};
ghost use Rattle.stack_steps.specs.MadeRows.{AreMade, FindsMade, IsFreePlace, KeepsMade};
ghost use Rattle.stack_steps.specs.Modules.{SpaceValue};
ghost use Rattle.std.specs.List.{AllByRecursion};

use eh_frame::Row;
use std::alloc::{AllocError, Global};
use std::marker::Model;

// For how many rows there are places: two for each of the sets in which the addresses are.
const PLACES: usize = 64;

// 2^64 by the golden ratio: the high bits of a word's product with this differ where addresses lie close
// together.
const SPREAD: u64 = 0x9e37_79b9_7f4a_7c15;

// The set of an address.
#[inline(always)]
fn set_of(address: u64) -> usize
    ensures { result < 32 }
{
    ((address.wrapping_mul(SPREAD) >> 59) % 32) as usize
}

/// The row that was made at an address.
#[derive(Drop)]
pub(crate) struct MadeRow<'a> {
    pub(crate) address: u64,
    // whether its description is of a signal's frame
    pub(crate) signal: bool,
    pub(crate) row: Row<'a>,
}

/// Rows that were made at addresses of modules that aren't prepared, in walks over one image: a frame
/// at an address whose row is there needs no search. As in a recursion, which has few addresses.
///
/// It has a fixed number of places, made once, two for each set of addresses. They hold the two rows that
/// were made last of the set. Contracts see the places.
#[derive(Drop)]
pub struct MadeRows<'a> {
    places: Vec<Option<MadeRow<'a>>>,
    // for each set a bit: which of its places is the next that takes a row
    turns: u32,
}

impl<'a> Model for MadeRows<'a> {
    ghost use Rattle.std.specs.Prelude.{◌≡◌, List, Option, length};
    ghost use Rattle.stack_steps.specs.declared.made_rows.MadeRow.{MadeRow};

    ghost Value = { List (Option MadeRow) };

    ghost view = { λ r. r.places.items };

    ghost invariant = { λ r. length r.places.items ≡ 64 };
}

// All places free.
fn free_places<'a>(alloc: Global) -> Result<MadeRows<'a>, AllocError>
    ensures { IfOk result (λ rows. AllByRecursion IsFreePlace rows) }
{
    let mut places = Vec::with_capacity(alloc, PLACES)?;
    for _ in 0..PLACES {
        places.push(None)?;
    }
    Ok(MadeRows { places, turns: 0 })
}

impl<'a> MadeRows<'a> {
    /// Places for rows, of which none was made yet.
    ///
    /// # Errors
    ///
    /// Where memory runs out.
    pub fn new(alloc: Global) -> Result<MadeRows<'a>, AllocError>
        ensures { IfOk result (λ rows. (space : SpaceValue) → AreMade space rows) }
    {
        free_places(alloc)
    }

    // The row in a place, where it was made at an address.
    #[inline(always)]
    fn row_in(&self, place: usize, address: u64) -> Option<&MadeRow<'a>>
        requires { place < 64 }
        ensures { IfSome result (λ row. FindsMade self.now address row.now) }
    {
        match &self.places[place] {
            Some(row) if row.address == address => Some(row),
            _ => None,
        }
    }

    // The row that was made at an address.
    #[inline(always)]
    pub(crate) fn find(&self, address: u64) -> Option<&MadeRow<'a>>
        ensures { IfSome result (λ row. FindsMade self.now address row.now) }
    {
        let place = set_of(address) * 2;
        match self.row_in(place, address) {
            Some(row) => Some(row),
            None => self.row_in(place + 1, address),
        }
    }

    // Keeps a row in the place whose turn it is in the set of its address.
    #[inline(always)]
    pub(crate) fn keep(&mut self, row: MadeRow<'a>)
        ensures { KeepsMade self.old row.entry self.new }
    {
        let set = set_of(row.address);
        let place = set * 2 + (self.turns >> set) as usize % 2;
        self.turns ^= 1 << set;
        self.places[place] = Some(row);
    }
}
