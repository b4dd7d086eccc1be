//! The table of a header beside the descriptions of a frame table. LSB, section on `.eh_frame_hdr`.

ghost use Rattle.std.specs.Prelude.{◌≡◌, ◌==◌, ◌&&◌, ◌+◌, ◌++◌, ◌<◌, ◌∷◌, ℕ, List, [], MatchOption};
ghost use Rattle.std.specs.Prelude.{Ok, Option, Some, false, length, take, true};
ghost use Rattle.std.specs.Bool.{Decides};
ghost use Rattle.std.specs.List.{Contains};
ghost use Rattle.std.specs.Option.{option_map};
ghost use Rattle.unwind_definitions.specs.Entries.{Fde as Description};
ghost use Rattle.unwind_definitions.specs.Header.{PairTable, pair_at};
ghost use Rattle.unwind_definitions.specs.Module.{HeaderLists, header_form, pair_of};
ghost use Rattle.eh_frame.specs.EntryViews.{fde_of, table_of};
ghost use Rattle.eh_frame.specs.HeaderViews.{pairs_of};
ghost use Rattle.fde_finders.specs.FrameTables.{table_by_kind};
ghost use Rattle.fde_finders.specs.NamedTables.{named_of};
ghost use Rattle.table_check.specs.AllEntries.{AllApart};
ghost use Rattle.table_check.specs.Modules.{tables_of};
ghost use Rattle.table_check.specs.Pairs.{AreRead, AreReadSoFar, IsListedSoFar, IsPlaceIn, ListsAll};
ghost use Rattle.table_check.specs.Pairs.{SaysListed};

use crate::findings::Findings;
use eh_frame::{Fde, HdrTable};
use fde_finders::{FrameInfoKind, NamedTable};
use memory_image::{MemoryImage, NoLedger, Steps};

/// How the table of a header lists the descriptions of a frame table so far. With each description
/// the table's next pair is read, once, which is the description's own where both stand in one order.
#[derive(Clone, Copy)]
pub(crate) struct ListedSoFar {
    // the start in the last pair that was read
    last_start: Option<u64>,
    /// Whether as many pairs as there are descriptions read and ascend, and each description has its
    /// own in the table.
    pub(crate) are_listed: bool,
}

/// Whether the table of a module's header, where it has one, lists the descriptions of the frame
/// table that the module names. What these tell is found.
pub(crate) fn lists_descriptions(
    image: &MemoryImage<'_>,
    kind: FrameInfoKind,
    table: &NamedTable<'_>,
    found: &Findings,
) -> bool
    ensures { (text : Option ℕ) (fdes : List Description) →
        table_by_kind text kind image.now ≡ Some (named_of table.now) → AllApart fdes →
        found.now.descriptions ≡ length fdes →
        SaysListed (option_map pairs_of table.now.pairs) (table_of table.now.frames).base fdes
        found.now.listed →
        Decides result (HeaderLists image.now (tables_of kind) (table_of table.now.frames).base
        fdes) }
{
    match kind {
        FrameInfoKind::EhFrame(_) => true,
        FrameInfoKind::EhFrameHdr(header) => {
            has_form(image.bytes_from(header)) && lists_all(&table.pairs, found)
        }
    }
}

// Whether a header has the version and the encodings that linkers choose.
fn has_form(header: &[u8]) -> bool
    ensures { Decides result (take 4 header.now ≡ header_form) }
{
    matches!(header, [0x01, 0x1b, 0x03, 0x3b, ..])
}

// Whether the table of a header of that form lists the descriptions.
fn lists_all(pairs: &Option<HdrTable<'_>>, found: &Findings) -> bool
    ensures { (frame : ℕ) (fdes : List Description) → found.now.descriptions ≡ length fdes →
        SaysListed (option_map pairs_of pairs.now) frame fdes found.now.listed →
        Decides result (ListsAll (option_map pairs_of pairs.now) frame fdes) }
{
    match pairs {
        None => found.descriptions == 0,
        Some(pairs) => pairs.len() == found.descriptions && found.listed.are_listed,
    }
}

impl ListedSoFar {
    /// That of no descriptions.
    pub(crate) fn none() -> ListedSoFar
        ensures { (t : PairTable) (frame : ℕ) → IsListedSoFar t frame [] result }
    {
        ListedSoFar {
            last_start: None,
            are_listed: true,
        }
    }

    /// Takes the next description of the frame table, before which so many stand.
    pub(crate) fn take(&mut self, table: &NamedTable<'_>, fde: &Fde<'_>, before: u64)
        ensures { (fdes : List Description) → length fdes ≡ before →
            SaysListed (option_map pairs_of table.now.pairs) (table_of table.now.frames).base fdes
            self.old →
            SaysListed (option_map pairs_of table.now.pairs) (table_of table.now.frames).base
            (fdes ++ fde_of fde.now ∷ []) self.new }
    {
        if let Some(pairs) = &table.pairs {
            let place = table.frames.address().wrapping_add(fde.offset());
            self.take_pair(pairs, before, fde.initial_address(), place);
        }
    }

    // The same by the table's pairs, and the pair that the description has to have.
    fn take_pair(&mut self, pairs: &HdrTable<'_>, before: u64, start: u64, place: u64)
        ensures { (frame : ℕ) (fdes : List Description) (fde : Description) →
            length fdes ≡ before → pair_of frame fde ≡ (start, place) →
            IsListedSoFar (pairs_of pairs.now) frame fdes self.old →
            IsListedSoFar (pairs_of pairs.now) frame (fdes ++ fde ∷ []) self.new }
    {
        if self.are_listed {
            self.are_listed = lists_next(&mut self.last_start, pairs, before, start, place);
        }
    }
}

// Whether the pair at an index reads and starts above the last one, and the table has the pair of a
// start and a description's address: that one, or else it is found by halving.
fn lists_next(
    last_start: &mut Option<u64>,
    pairs: &HdrTable<'_>,
    index: u64,
    start: u64,
    place: u64,
) -> bool
    ensures yes { result ≡ true → AreReadSoFar (pairs_of pairs.now) index last_start.old →
        AreReadSoFar (pairs_of pairs.now) (index + 1) last_start.new
        × ((read : List (ℕ × ℕ)) → AreRead (pairs_of pairs.now) read →
        Contains read (start, place)) }
    ensures no { result ≡ false → AreReadSoFar (pairs_of pairs.now) index last_start.old →
        index < (pairs_of pairs.now).count →
        (read : List (ℕ × ℕ)) → AreRead (pairs_of pairs.now) read →
        Contains read (start, place) → ⊥ }
{
    let Some((first, found)) = next_pair(last_start, pairs, index) else {
        return false;
    };
    if are_same(first, found, start, place) {
        return true;
    }
    has_pair(pairs, start, place)
}

// The pair at an index, where it reads and starts above the last one.
fn next_pair(last_start: &mut Option<u64>, pairs: &HdrTable<'_>, index: u64) -> Option<(u64, u64)>
    ensures { AreReadSoFar (pairs_of pairs.now) index last_start.old →
        MatchOption result
        (index < (pairs_of pairs.now).count →
        (read : List (ℕ × ℕ)) → AreRead (pairs_of pairs.now) read → ⊥)
        (λ pair. (index < (pairs_of pairs.now).count)
        × (pair_at (pairs_of pairs.now) index ≡ Ok pair)
        × AreReadSoFar (pairs_of pairs.now) (index + 1) last_start.new) }
{
    if index >= pairs.len() {
        return None;
    }
    let mut steps = Steps::new(NoLedger);
    let Ok((start, place)) = pairs.entry(index, &mut steps) else {
        return None;
    };
    if !is_above(start, *last_start) {
        return None;
    }
    *last_start = Some(start);
    Some((start, place))
}

// Whether a start is above the last one, if there is one.
fn is_above(start: u64, last: Option<u64>) -> bool
    ensures { Decides result (MatchOption last (Unit {0}) (λ before. before < start)) }
{
    match last {
        Some(before) => before < start,
        None => true,
    }
}

// Whether two starts are the same, and two addresses.
fn are_same(first: u64, found: u64, start: u64, place: u64) -> bool
    ensures { result ≡ ((first == start) && (found == place)) }
{
    first == start && found == place
}

// Whether a table has the pair of a start and a description's address.
fn has_pair(pairs: &HdrTable<'_>, start: u64, place: u64) -> bool
    ensures { (read : List (ℕ × ℕ)) → AreRead (pairs_of pairs.now) read →
        Decides result (Contains read (start, place)) }
{
    match place_of(pairs, start) {
        Some(found) => found == place,
        None => false,
    }
}

// The description's address in the pair with a start, by halving.
fn place_of(pairs: &HdrTable<'_>, start: u64) -> Option<u64>
    ensures { (read : List (ℕ × ℕ)) → AreRead (pairs_of pairs.now) read →
        IsPlaceIn read start result }
{
    let mut steps = Steps::new(NoLedger);
    let mut low = 0;
    let mut high = pairs.len();
    while low < high {
        let middle = low + (high - low) / 2;
        let Ok((first, place)) = pairs.entry(middle, &mut steps) else {
            return None;
        };
        if first == start {
            return Some(place);
        }
        if first < start {
            low = middle + 1;
        } else {
            high = middle;
        }
    }
    None
}
