// Stacks with their counts.
ghost use Rattle.std.specs.Prelude.{◌≡◌, ◌==◌, ◌<◌, ◌^◌, length, slice_get, IfOk, option_map};
ghost use Rattle.std.specs.Option.{option_and_then};
ghost use Rattle.folded_stacks.specs.Lines.{lines_at};
ghost use Rattle.folded_stacks.specs.Places.{stacks_at};
ghost use Rattle.folded_stacks.specs.Runs.{runs_of};

use crate::stacks::{Place, StackList, compare_at, stack_at};
use std::alloc::{AllocError, Global};
use std::cmp::Ordering;
use std::marker::Model;

/// A stack, and of how many samples it is the stack.
#[derive(Clone, Copy)]
pub(crate) struct Line {
    place: Place,
    count: u64,
}

/// The stacks of samples, in order, each with the number of the samples that show it, and how many
/// samples have no stack, since their walks were refused.
///
/// Contracts see the stacks with their counts, and the number of refused samples.
#[derive(Drop)]
pub struct Folded {
    addresses: Vec<u64>,
    lines: Vec<Line>,
    refused: u64,
}

impl Model for Folded {
    ghost use Rattle.folded_stacks.specs.Counts.{FoldedValue};
    ghost use Rattle.folded_stacks.specs.Lines.{lines_at};

    ghost Value = { FoldedValue };

    ghost view = { λ f. record
        { lines = lines_at f.addresses.items f.lines.items; refused = f.refused } };
}

impl Folded {
    /// How many stacks there are.
    pub fn len(&self) -> usize
        ensures { result ≡ length self.now.lines }
    {
        self.lines.len()
    }

    /// Whether there are none.
    pub fn is_empty(&self) -> bool
        ensures { result ≡ (length self.now.lines == 0) }
    {
        self.lines.is_empty()
    }

    /// How many samples show the stack at this place.
    pub fn count(&self, i: usize) -> Option<u64>
        ensures { result ≡ option_map (λ line. line.count) (slice_get self.now.lines i) }
    {
        let line = self.lines.get(i)?;
        Some(line.count)
    }

    /// The return addresses of the stack at this place, the outermost first.
    pub fn stack(&self, i: usize) -> Option<&[u64]>
        ensures { option_map (λ addresses. addresses.now) result ≡
            option_map (λ line. line.stack) (slice_get self.now.lines i) }
    {
        let line = self.lines.get(i)?;
        Some(stack_at(&self.addresses, line.place))
    }

    /// How many return addresses the stack at this place has.
    pub fn depth(&self, i: usize) -> Option<usize>
        ensures { result ≡ option_map (λ line. length line.stack) (slice_get self.now.lines i) }
    {
        let stack = self.stack(i)?;
        Some(stack.len())
    }

    /// The return address at a place of the stack at a place, counted from the outermost.
    pub fn address(&self, i: usize, j: usize) -> Option<u64>
        ensures { result ≡
            option_and_then (λ line. slice_get line.stack j) (slice_get self.now.lines i) }
    {
        let stack = self.stack(i)?;
        stack.get(j).copied()
    }

    /// How many samples have no stack.
    pub fn refused(&self) -> u64
        ensures { result ≡ self.now.refused }
    {
        self.refused
    }
}

/// The stacks that stand one after another, each once with their number.
fn run_lines(alloc: Global, addresses: &[u64], places: &[Place]) -> Result<Vec<Line>, AllocError>
    requires { length places.now < 2 ^ 64 }
    ensures { IfOk result (λ lines.
        lines_at addresses.now lines.items ≡ runs_of (stacks_at addresses.now places.now)) }
{
    let mut lines = Vec::with_capacity(alloc, places.len())?;
    let Some((first, others)) = places.split_first() else {
        return Ok(lines);
    };
    let mut last = Line {
        place: *first,
        count: 1,
    };
    for place in others {
        if compare_at(addresses, last.place, *place) == Ordering::Equal {
            last.count += 1;
        } else {
            lines.push(last)?;
            last = Line {
                place: *place,
                count: 1,
            };
        }
    }
    lines.push(last)?;
    lines.shrink_to_fit();
    Ok(lines)
}

/// The stacks, which stand in order, each once with their number.
///
/// # Errors
///
/// `AllocError` where memory ran out.
pub(crate) fn fold_runs(
    alloc: Global,
    stacks: StackList,
    refused: u64,
) -> Result<Folded, AllocError>
    ensures { IfOk result (λ folded.
        folded ≡ record { lines = runs_of stacks; refused = refused }) }
{
    let StackList { addresses, places } = stacks;
    let lines = run_lines(alloc, &addresses, &places)?;
    Ok(Folded {
        addresses,
        lines,
        refused,
    })
}
