// Where a record's epilog operations say that the function's epilogs are.
ghost use Rattle.std.specs.Prelude.{◌≡◌, ◌∷◌, ℕ, MatchOption};
ghost use Rattle.pe_unwind_info.specs.EpilogList.{first_epilog, leading_epilogs, after_epilogs};
ghost use Rattle.pe_unwind_info.specs.EpilogList.{is_within, is_due, lists, lists_last, any_lists};
ghost use Rattle.pe_unwind_info.specs.Operations.{operations_left};

use crate::x86_64::operations::{EpilogInformation, UnwindOperation, UnwindOperations};

// takes the next operation where it tells of an epilog
fn next_epilog(operations: &mut UnwindOperations<'_>) -> Option<EpilogInformation>
    ensures first { result ≡ first_epilog (operations_left operations.old) }
    ensures rest { MatchOption result
        (operations_left operations.new ≡ operations_left operations.old)
        (λ epilog. (place : ℕ) ×
        (operations_left operations.old ≡
        (place, UnwindOperation.EpilogInformation epilog) ∷ operations_left
        operations.new)) }
{
    let mut rest = *operations;
    match rest.next() {
        Some((_, UnwindOperation::EpilogInformation(epilog))) => {
            *operations = rest;
            Some(epilog)
        }
        _ => None,
    }
}

// whether an epilog of this size that begins so many bytes before the end holds the address
fn is_within(end: u32, size: u8, address: u32, offset: u16) -> bool
    ensures { result ≡ is_within end size address offset }
{
    let end = u64::from(end);
    let place = u64::from(address) + u64::from(offset);
    end <= place && place < end + u64::from(size)
}

// whether an epilog operation that isn't the first lists an epilog that holds the address
fn lists(end: u32, size: u8, address: u32, epilog: &EpilogInformation) -> bool
    ensures { result ≡ lists end size address epilog.now }
{
    let offset = epilog.as_offset();
    offset != 0 && is_within(end, size, address, offset)
}

// whether the first epilog operation tells of an epilog at the function's end that holds the
// address
fn lists_last(end: u32, address: u32, first: &EpilogInformation) -> bool
    ensures { result ≡ lists_last end address first.now }
{
    let header = first.as_header();
    let size = header.epilog_size();
    header.single_epilog() && is_within(end, size, address, u16::from(size))
}

// takes the epilog operations after the first one, and answers whether one of them lists an
// epilog that holds the address
#[tactic(auto, using(crate::proofs::EpilogListLemmas::leading_none, crate::proofs::EpilogListLemmas::after_none, crate::proofs::EpilogListLemmas::after_some, crate::proofs::EpilogListLemmas::any_none, crate::proofs::EpilogListLemmas::any_listed, crate::proofs::EpilogListLemmas::any_unlisted))]
fn take_later_epilogs(
    operations: &mut UnwindOperations<'_>,
    end: u32,
    size: u8,
    address: u32,
) -> bool
    ensures listed { result
        ≡ any_lists end size address (leading_epilogs (operations_left operations.old)) }
    ensures rest { operations_left operations.new
        ≡ after_epilogs (operations_left operations.old) }
{
    let mut listed = false;
    while let Some(epilog) = next_epilog(operations) {
        if lists(end, size, address, &epilog) {
            listed = true;
        }
    }
    listed
}

// takes the epilog operations that come first, and answers whether the code at the address has to be
// tested for an epilog
#[tactic(auto, using(crate::proofs::EpilogListLemmas::leading_none, crate::proofs::EpilogListLemmas::after_none, crate::proofs::EpilogListLemmas::leading_some, crate::proofs::EpilogListLemmas::after_some))]
fn take_epilogs(operations: &mut UnwindOperations<'_>, end: u32, address: u32) -> bool
    ensures due { result ≡ is_due end address (leading_epilogs (operations_left operations.old)) }
    ensures rest { operations_left operations.new
        ≡ after_epilogs (operations_left operations.old) }
{
    let Some(first) = next_epilog(operations) else {
        return true;
    };
    let size = first.as_header().epilog_size();
    let later = take_later_epilogs(operations, end, size, address);
    lists_last(end, address, &first) || later
}

// the same, from operations to those that are left
#[inline(never)]
fn after_told<'a>(
    operations: UnwindOperations<'a>,
    end: u32,
    address: u32,
) -> (bool, UnwindOperations<'a>)
    ensures due { result.0
        ≡ is_due end address (leading_epilogs (operations_left operations.entry)) }
    ensures rest { operations_left result.1 ≡ after_epilogs (operations_left operations.entry) }
{
    let mut after = operations;
    let due = take_epilogs(&mut after, end, address);
    (due, after)
}

/// Whether the code at the address has to be tested for an epilog: where no epilog operations come
/// first, and where one of the epilogs that they list holds the address. Beside it, the operations
/// after them.
#[tactic(auto, using(crate::proofs::EpilogListLemmas::leading_none, crate::proofs::EpilogListLemmas::after_none))]
pub(crate) fn after_epilogs<'a>(
    operations: UnwindOperations<'a>,
    end: u32,
    address: u32,
) -> (bool, UnwindOperations<'a>)
    ensures due { result.0
        ≡ is_due end address (leading_epilogs (operations_left operations.entry)) }
    ensures rest { operations_left result.1 ≡ after_epilogs (operations_left operations.entry) }
{
    if operations.may_tell_of_epilogs() {
        after_told(operations, end, address)
    } else {
        (true, operations)
    }
}
