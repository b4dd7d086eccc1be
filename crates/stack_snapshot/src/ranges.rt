// Ranges of addresses, and whether any two of them share an address.
ghost use Rattle.std.specs.Prelude.{◌≡◌, ◌≤◌, ◌↔◌, All, IfOk, IsTrue};
ghost use Rattle.stack_snapshot.specs.Ranges.{AreDisjoint, are_ascending};

use std::alloc::AllocError;

/// The addresses from the first to the last.
#[derive(Clone, Copy)]
pub struct AddressRange {
    pub first: u64,
    pub last: u64,
}

/// Whether each range begins after the end of the one before.
fn are_ascending(ranges: &[AddressRange]) -> bool
    ensures { result ≡ are_ascending ranges.now }
{
    let Some((before, others)) = ranges.split_first() else {
        return true;
    };
    let mut last = before.last;
    for range in others {
        if range.first <= last {
            return false;
        }
        last = range.last;
    }
    true
}

/// Whether no address lies in two of the ranges. In the order of their first addresses, each then
/// begins after the end of the one before.
///
/// # Errors
///
/// `AllocError` where memory ran out.
pub fn are_disjoint(mut ranges: Vec<AddressRange>) -> Result<bool, AllocError>
    requires { All (λ range. range.first ≤ range.last) ranges.items }
    ensures { IfOk result (λ disjoint. IsTrue disjoint ↔ AreDisjoint ranges.items) }
{
    ranges.sort_by_key(|range| range.first)?;
    Ok(are_ascending(&ranges))
}
