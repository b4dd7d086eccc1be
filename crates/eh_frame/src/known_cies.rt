//! The common information entries of a table that were the last to be read.

ghost use Rattle.std.specs.Prelude.{◌≡◌, IfSome, Ok};
ghost use Rattle.unwind_definitions.specs.Entries.{cie_at};
ghost use Rattle.unwind_definitions.specs.Input.{Input};
ghost use Rattle.unwind_definitions.specs.Pointers.{Bases};
ghost use Rattle.eh_frame.specs.EntryViews.{cie_of, entry_of};
ghost use Rattle.eh_frame.specs.Shared.{StandsIn, cie_of_entry};
ghost use Rattle.eh_frame.specs.Standing.{AreStanding};

use crate::cie::Cie;
use crate::entries::Entry;

/// The last two common information entries that were read of a table. Functions of two languages
/// often stand by turns, and so do the entries that their descriptions name.
#[derive(Drop)]
pub(crate) struct KnownCies<'a> {
    last: Option<Cie<'a>>,
    before: Option<Cie<'a>>,
}

impl<'a> KnownCies<'a> {
    /// None yet.
    pub(crate) fn new() -> KnownCies<'a>
        ensures { (bases : Bases) (table : Input) → AreStanding bases table result }
    {
        KnownCies {
            last: None,
            before: None,
        }
    }

    /// The one at an offset of the table, if it is known.
    #[inline(always)]
    pub(crate) fn get(&self, offset: u64) -> Option<&Cie<'a>>
        ensures { (bases : Bases) (table : Input) → AreStanding bases table self.now →
            IfSome result (λ cie. cie_at bases table offset ≡ Ok (cie_of cie.now)) }
    {
        match at_offset(&self.last, offset) {
            Some(cie) => Some(cie),
            None => at_offset(&self.before, offset),
        }
    }

    /// Notes the one that an entry of the table is or names, unless it is known.
    #[inline(always)]
    pub(crate) fn note(&mut self, entry: &Entry<'a>)
        ensures { (bases : Bases) (table : Input) → AreStanding bases table self.old →
            StandsIn bases table (cie_of_entry (entry_of entry.now)) →
            AreStanding bases table self.new }
    {
        if self.get(entry.named_offset()).is_none() {
            self.put(entry.named_cie());
        }
    }

    /// Makes one the last, and the last the one before it. By value, so that an entry in the loop that
    /// reads it needn't stand in memory.
    #[inline(never)]
    pub(crate) fn put(&mut self, cie: Cie<'a>)
        ensures { (bases : Bases) (table : Input) → AreStanding bases table self.old →
            StandsIn bases table (cie_of cie.entry) → AreStanding bases table self.new }
    {
        self.before = self.last;
        self.last = Some(cie);
    }
}

// The one that is known, if it stands at an offset.
#[inline(always)]
fn at_offset<'k, 'a>(known: &'k Option<Cie<'a>>, offset: u64) -> Option<&'k Cie<'a>>
    ensures { (bases : Bases) (table : Input) →
        IfSome known.now (λ cie. StandsIn bases table (cie_of cie)) →
        IfSome result (λ cie. cie_at bases table offset ≡ Ok (cie_of cie.now)) }
{
    match known {
        Some(cie) if cie.offset() == offset => Some(cie),
        _ => None,
    }
}
