//! What the entries of a frame table tell, beside functions that are claimed. LSB, section on
//! `.eh_frame`.

ghost use Rattle.std.specs.Prelude.{◌≡◌, ◌+◌, ◌<◌, ◌≤◌, ◌^◌, ◌∷◌, ◌++◌, ℕ, List, [], IfErr, IfOk};
ghost use Rattle.std.specs.Prelude.{None, Ok, Some, length, map};
ghost use Rattle.std.specs.List.{AllByRecursion};
ghost use Rattle.unwind_definitions.specs.Entries.{AFde, Entry as Described, entry_at};
ghost use Rattle.unwind_definitions.specs.Function.{IsFunction};
ghost use Rattle.unwind_definitions.specs.Header.{PairTable};
ghost use Rattle.unwind_definitions.specs.Prologue.{SystemV};
ghost use Rattle.unwind_definitions.specs.Scan.{fdes_of};
ghost use Rattle.encoded_pointers.specs.PointerViews.{bases_of};
ghost use Rattle.eh_frame.specs.EntryViews.{entry_of, fde_of, table_of};
ghost use Rattle.fde_finders.specs.NamedTables.{named_of};
ghost use Rattle.table_check.specs.ClaimViews.{function_of};
ghost use Rattle.table_check.specs.Findings.{AreFound, Tells};
ghost use Rattle.table_check.specs.Pairs.{IsListedSoFar};
ghost use Rattle.table_check.specs.Ranges.{AreInOrder};
ghost use Rattle.table_check.specs.Scanned.{IsFirstRefused, ReadBefore};

use crate::claims::Claim;
use crate::entries::is_short;
use crate::extras::{first_ending_after_start, later_end, may_stand};
use crate::header_tables::ListedSoFar;
use crate::marks::{forget_descriptions, note};
use eh_frame::{Entry, Fde, RowWalk};
use fde_finders::NamedTable;
use memory_image::MemoryImage;

/// What the entries so far tell.
#[derive(Clone, Copy)]
pub(crate) struct Findings {
    // how many they are
    entries: u64,
    /// How many of them are descriptions.
    pub(crate) descriptions: u64,
    /// Where the first description starts that is empty, shares an address with one before it, or
    /// shares one with a claim without having its range. Those after it tell nothing more.
    pub(crate) extra: Option<u64>,
    // an address at or before which all descriptions end
    highest: u64,
    // which claim the next description is of, if they stand in the order of the claims
    next_claim: usize,
    /// How the table of a header lists them, where there is one.
    pub(crate) listed: ListedSoFar,
}

/// Goes through the entries of a frame table once, and notes what its descriptions say of claims.
/// `bytes` are those of the table.
///
/// # Errors
///
/// The offset of the first entry that can't be read, or whose length isn't spelled by four bytes.
pub(crate) fn go_through(
    image: &MemoryImage<'_>,
    table: &NamedTable<'_>,
    bytes: &[u8],
    claims: &mut [Claim],
) -> Result<Findings, u64>
    requires bytes { bytes.now ≡ (table_of table.now.frames).bytes }
    requires order { AreInOrder (map function_of claims.old) }
    requires functions { AllByRecursion (IsFunction SystemV) (map function_of claims.old) }
    ensures same { map function_of claims.new ≡ map function_of claims.old }
    ensures refused { IfErr result (λ offset.
        IsFirstRefused (bases_of table.now.bases) (table_of table.now.frames) offset) }
    ensures found { IfOk result (λ found. AreFound image.now (named_of table.now)
        (map function_of claims.old) claims.new found) }
{
    forget_descriptions(claims);
    let mut found = Findings::new();
    let mut walk = RowWalk::new();
    let mut entries = table.frames.entries(&table.bases);
    loop {
        let offset = entries.offset();
        match entries.next() {
            Err(_) => return Err(offset),
            Ok(None) => return Ok(found),
            Ok(Some(entry)) => {
                if !is_short(table.frames.address(), bytes, offset) {
                    return Err(offset);
                }
                found.take(image, table, claims, &entry, &mut walk);
            }
        }
    }
}

impl Findings {
    // What no entries tell.
    fn new() -> Findings
        ensures entries { result.entries ≡ 0 }
        ensures descriptions { result.descriptions ≡ 0 }
        ensures extra { result.extra ≡ None }
        ensures listed { (t : PairTable) (frame : ℕ) → IsListedSoFar t frame [] result.listed }
    {
        Findings {
            entries: 0,
            descriptions: 0,
            extra: None,
            highest: 0,
            next_claim: 0,
            listed: ListedSoFar::none(),
        }
    }

    // Takes the next entry.
    fn take<'a>(
        &mut self,
        image: &MemoryImage<'_>,
        table: &NamedTable<'a>,
        claims: &mut [Claim],
        entry: &Entry<'a>,
        walk: &mut RowWalk<'a>,
    )
        requires order { AreInOrder (map function_of claims.old) }
        requires functions { AllByRecursion (IsFunction SystemV) (map function_of claims.old) }
        requires room { self.old.entries + 1 < 2 ^ 64 }
        requires fewer { self.old.descriptions ≤ self.old.entries }
        ensures same { map function_of claims.new ≡ map function_of claims.old }
        ensures entries { self.new.entries ≡ self.old.entries + 1 }
        ensures descriptions { self.new.descriptions ≡
            self.old.descriptions + length (fdes_of (entry_of entry.now ∷ [])) }
        ensures fewer { self.new.descriptions ≤ self.new.entries }
        ensures tells { (before : List Described) (at next : ℕ) → length before ≡ self.old.entries →
            length (fdes_of before) ≡ self.old.descriptions →
            ReadBefore (bases_of table.now.bases) (table_of table.now.frames) 0 before at →
            entry_at (bases_of table.now.bases) (table_of table.now.frames) at ≡
            Ok (Some (record { entry = entry_of entry.now; next = next })) →
            Tells image.now (named_of table.now) (map function_of claims.old) claims.old
            (fdes_of before) self.old →
            Tells image.now (named_of table.now) (map function_of claims.old) claims.new
            (fdes_of (before ++ entry_of entry.now ∷ [])) self.new }
    {
        match entry {
            Entry::Cie(_) => self.entries += 1,
            Entry::Fde(fde) => {
                self.take_description(image, table, claims, fde, walk);
                self.descriptions += 1;
                self.entries += 1;
            }
        }
    }

    // Takes the description of the next entry, unless one before stands where it can't.
    fn take_description<'a>(
        &mut self,
        image: &MemoryImage<'_>,
        table: &NamedTable<'a>,
        claims: &mut [Claim],
        fde: &Fde<'a>,
        walk: &mut RowWalk<'a>,
    )
        requires order { AreInOrder (map function_of claims.old) }
        requires functions { AllByRecursion (IsFunction SystemV) (map function_of claims.old) }
        ensures same { map function_of claims.new ≡ map function_of claims.old }
        ensures entries { self.new.entries ≡ self.old.entries }
        ensures descriptions { self.new.descriptions ≡ self.old.descriptions }
        ensures tells { (before : List Described) (at next : ℕ) → length before ≡ self.old.entries →
            length (fdes_of before) ≡ self.old.descriptions →
            ReadBefore (bases_of table.now.bases) (table_of table.now.frames) 0 before at →
            entry_at (bases_of table.now.bases) (table_of table.now.frames) at ≡
            Ok (Some (record { entry = AFde (fde_of fde.now); next = next })) →
            Tells image.now (named_of table.now) (map function_of claims.old) claims.old
            (fdes_of before) self.old →
            Tells image.now (named_of table.now) (map function_of claims.old) claims.new
            (fdes_of (before ++ AFde (fde_of fde.now) ∷ [])) self.new }
    {
        if self.extra.is_some() {
            return;
        }
        let (entries, highest) = (self.entries, self.highest);
        let index = first_ending_after_start(claims, fde, self.next_claim);
        if !may_stand(
            &table.frames,
            &table.bases,
            claims,
            fde,
            entries,
            highest,
            index,
        ) {
            self.extra = Some(fde.initial_address());
            return;
        }
        self.next_claim = note(image, &table.bases, claims, fde, index, walk);
        self.listed.take(table, fde, self.descriptions);
        self.highest = later_end(fde, highest);
    }
}
