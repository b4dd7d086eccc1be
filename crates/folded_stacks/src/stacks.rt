// Stacks by their addresses, which stand one after another in one list.
ghost use Rattle.std.specs.Prelude.{◌≡◌, ◌++◌, ◌∷◌, [], IfOk, OnOk, OnErr};
ghost use Rattle.std.specs.List.Sorted.{IsPermutation};
ghost use Rattle.folded_stacks.specs.Places.{Extends, stack_at};
ghost use Rattle.folded_stacks.specs.Stacks.{NeverFall, outermost_first, stack_of, stack_order};

use stack_deliver::Room;
use std::alloc::{AllocError, Global};
use std::cmp::Ordering;
use std::marker::Model;

/// Where the addresses of a stack stand.
#[derive(Clone, Copy)]
pub(crate) struct Place {
    pub(crate) start: usize,
    pub(crate) len: usize,
}

/// The addresses that stand at a place.
pub(crate) fn stack_at(addresses: &[u64], place: Place) -> &[u64]
    ensures { result.now ≡ stack_at addresses.now place }
{
    let start = place.start.min(addresses.len());
    let rest = &addresses[start..];
    &rest[..place.len.min(rest.len())]
}

/// Which of two stacks comes first.
pub(crate) fn compare_at(addresses: &[u64], left: Place, right: Place) -> Ordering
    ensures { result ≡ stack_order (stack_at addresses.now left) (stack_at addresses.now right) }
{
    stack_at(addresses, left).cmp(&stack_at(addresses, right))
}

/// Makes room for so many more addresses. Where they have none, the list grows by half, or by so
/// many where that is more: never to twice its size, as it would by itself.
fn make_room(addresses: &mut Vec<u64>, more: usize) -> Result<(), AllocError>
    ensures { addresses.new.items ≡ addresses.old.items }
{
    if addresses.capacity() - addresses.len() < more {
        addresses.reserve_exact(more.max(addresses.len() / 2))?;
    }
    Ok(())
}

/// Puts a return address last, unless it is 0.
fn put_return(addresses: &mut Vec<u64>, address: u64) -> Result<(), AllocError>
    ensures put { OnOk result
        (addresses.new.items ≡ addresses.old.items ++ outermost_first (address ∷ [])) }
    ensures unchanged { OnErr result (addresses.new.items ≡ addresses.old.items) }
{
    if address != 0 {
        addresses.push(address)?;
    }
    Ok(())
}

/// Puts the return addresses of the states in a room last, the outermost first, without those that
/// are 0.
fn put_returns(addresses: &mut Vec<u64>, room: &Room) -> Result<(), AllocError>
    ensures put { OnOk result
        (addresses.new.items ≡ addresses.old.items ++ stack_of room.now.visited) }
    ensures extends { Extends addresses.old.items addresses.new.items }
{
    for i in (0..room.visited_len()).rev() {
        let state = room.visited(i).unwrap();
        put_return(addresses, state.ra)?;
    }
    Ok(())
}

/// Stacks in their order. Contracts see the addresses of each, the outermost first.
#[derive(Drop)]
pub(crate) struct StackList {
    pub(crate) addresses: Vec<u64>,
    pub(crate) places: Vec<Place>,
}

impl Model for StackList {
    ghost use Rattle.std.specs.Prelude.{ℕ, List};
    ghost use Rattle.folded_stacks.specs.Places.{LieWithin, stacks_at};

    ghost Value = { List (List ℕ) };

    ghost view = { λ s. stacks_at s.addresses.items s.places.items };

    ghost invariant = { λ s. LieWithin s.addresses.items s.places.items };
}

impl StackList {
    /// No stacks, with places for so many.
    ///
    /// # Errors
    ///
    /// `AllocError` where memory ran out.
    pub(crate) fn with_places(alloc: Global, count: usize) -> Result<StackList, AllocError>
        ensures { IfOk result (λ stacks. stacks ≡ []) }
    {
        let places = Vec::with_capacity(alloc, count)?;
        Ok(StackList {
            addresses: Vec::new(alloc),
            places,
        })
    }

    /// Puts the stack that the states in a room show last.
    ///
    /// # Errors
    ///
    /// `AllocError` where memory ran out.
    pub(crate) fn put_walk(&mut self, room: &Room) -> Result<(), AllocError>
        ensures { OnOk result (self.new ≡ self.old ++ stack_of room.now.visited ∷ []) }
    {
        let start = self.addresses.len();
        make_room(&mut self.addresses, room.visited_len())?;
        put_returns(&mut self.addresses, room)?;
        let len = self.addresses.len() - start;
        self.places.push(Place { start, len })?;
        Ok(())
    }

    /// Lets go of the memory after the last address.
    pub(crate) fn shrink(&mut self)
        ensures { self.new ≡ self.old }
    {
        self.addresses.shrink_to_fit();
    }

    /// Puts the stacks in order.
    ///
    /// # Errors
    ///
    /// `AllocError` where memory ran out; the stacks are then as before.
    pub(crate) fn sort(&mut self) -> Result<(), AllocError>
        ensures same { IsPermutation self.old self.new }
        ensures order { OnOk result (NeverFall self.new) }
        ensures unchanged { OnErr result (self.new ≡ self.old) }
    {
        let addresses = self.addresses.as_slice();
        self.places
            .sort_by(|left, right| compare_at(addresses, *left, *right))
    }
}
