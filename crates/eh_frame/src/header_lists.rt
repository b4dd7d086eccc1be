//! Whether the table of a header lists what an index holds.

ghost use Rattle.std.specs.Prelude.{◌≡◌, ◌+◌, ◌%◌, ◌^◌, Ok, false, map, true};
ghost use Rattle.eh_frame.specs.HeaderLists.{ListsEach};
ghost use Rattle.eh_frame.specs.HeaderViews.{pairs_of};
ghost use Rattle.eh_frame.specs.Index.{described_fde};
ghost use Rattle.eh_frame.specs.EntryViews.{table_of};

use crate::entries::EhFrame;
use crate::header::HdrTable;
use crate::prepared::Prepared;
use memory_image::{NoLedger, Steps};
use unwind_definitions::Error;

impl<'a> Prepared<'a> {
    /// Whether a header's table lists exactly the descriptions of the index, by ascending start:
    /// one pair for each, of its function's start and of its own address in the frame table
    /// `frames`.
    ///
    /// Each pair is read once at most.
    pub fn is_listed_by(&self, table: &HdrTable<'_>, frames: &EhFrame<'_>) -> bool
        ensures listed { result ≡ true → ListsEach (pairs_of table.now) (table_of frames.now).base
            (map described_fde self.now.functions) }
        ensures unlisted { result ≡ false → ¬ ListsEach (pairs_of table.now)
            (table_of frames.now).base (map described_fde self.now.functions) }
    {
        if table.len() != self.len() {
            return false;
        }
        let mut steps = Steps::new(NoLedger);
        for index in 0..self.len() {
            let (start, _) = self.range(index, &mut steps);
            let offset = self.offset(index);
            if !is_pair(
                table.entry(index, &mut steps),
                start,
                frames.address(),
                offset,
            ) {
                return false;
            }
        }
        true
    }
}

// Whether a pair that was read is a function's start and the address of its description.
fn is_pair(pair: Result<(u64, u64), Error>, start: u64, frame: u64, offset: u64) -> bool
    ensures same { result ≡ true → pair ≡ Ok (start, (frame + offset) % 2 ^ 64) }
    ensures other { result ≡ false → ¬ (pair ≡ Ok (start, (frame + offset) % 2 ^ 64)) }
{
    match pair {
        Ok((first, place)) => first == start && place == frame.wrapping_add(offset),
        Err(_) => false,
    }
}
