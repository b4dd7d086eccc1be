// The search in records that are sorted by where what they tell of starts.
ghost use Rattle.std.specs.Prelude.{◌≡◌};
ghost use Rattle.pe_unwind_info.specs.Search.{IsSearched, boundary_in};

use memory_image::{Keyed, Records};

/// The record that starts at or below the address and whose successor, if any, starts above it.
/// Where the records are out of order, it is the one that halving answers.
pub(crate) fn boundary<T: Keyed>(records: &Records<'_, T>, address: u32) -> Option<T>
    ensures searched { IsSearched T.key records.now address result }
    ensures same { result ≡ boundary_in T.key records.now address }
{
    let i = records.boundary(address)?;
    Some(records.at(i))
}
