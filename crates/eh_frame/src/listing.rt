//! The entries of a frame table, read one by one.

ghost use Rattle.encoded_pointers.specs.PointerViews.{bases_of};
ghost use Rattle.eh_frame.specs.Standing.{AreStanding, standing_prop};
ghost use Rattle.eh_frame.specs.EntryViews.{table_of};

use crate::entries::{EhFrame, Entry, read_body};
use crate::known_cies::KnownCies;
use encoded_pointers::Bases;
use unwind_definitions::Error;

/// The entries of a frame table, one after another.
///
/// The list ends at the table's end, or at an entry whose length is 0.
/// Source: LSB, section on `.eh_frame`.
#[derive(Drop)]
pub struct Entries<'a> {
    table: EhFrame<'a>,
    bases: Bases,
    offset: u64,
    is_over: bool,
    // of those that the entries before are or name
    known: KnownCies<'a>,
    ghost stands: { AreStanding (bases_of bases) (table_of table)
        known } by { standing_prop (bases_of bases) (table_of table) known },
}

impl<'a> Entries<'a> {
    ghost use Rattle.std.specs.Prelude.{◌≡◌, IfOk, IfSome, false};
    ghost use Rattle.std.specs.Option.{option_map};
    ghost use Rattle.encoded_pointers.specs.Readers.{Answers};
    ghost use Rattle.eh_frame.specs.EntryViews.{entry_of};
    ghost use Rattle.eh_frame.specs.Listing.{MovesAhead, listing_of, upcoming, entry_in, after};

    /// The entries of a table from its first byte on.
    pub(crate) fn new(table: EhFrame<'a>, bases: Bases) -> Entries<'a>
        ensures { listing_of result ≡ record
            { table = table_of table.entry; bases = bases_of bases; offset = 0; is_over = false } }
    {
        Entries {
            table,
            bases,
            offset: 0,
            is_over: false,
            known: KnownCies::new(),
        }
    }

    /// How many bytes of the table stand before the entry that the next call of [`Entries::next`]
    /// reads. After an error they are those before the entry that can't be read, and at the end of
    /// the list those before its end.
    pub fn offset(&self) -> u64
        ensures { result ≡ (listing_of self.now).offset }
    {
        self.offset
    }

    /// The next entry, `None` at the end of the list and after an error.
    ///
    /// # Errors
    ///
    /// The error of the entry, where it can't be read.
    // Inlined: an entry has more than 200 bytes, which would be copied at each return.
    #[inline(always)]
    pub fn next(&mut self) -> Result<Option<Entry<'a>>, Error>
        ensures entry { Answers (option_map entry_of) result
            (entry_in (upcoming (listing_of self.old))) }
        ensures rest { listing_of self.new ≡ after (listing_of self.old)
            (upcoming (listing_of self.old)) }
        ensures ahead { IfOk result (λ entry. IfSome entry (λ _.
            MovesAhead (listing_of self.old) (listing_of self.new))) }
    {
        if self.is_over {
            return Ok(None);
        }
        // An entry is built where it is answered, and isn't moved from a record with its end.
        let mut input = self.table.from(self.offset);
        let body = match read_body(&mut input) {
            Ok(Some(body)) => body,
            Ok(None) => {
                self.is_over = true;
                return Ok(None);
            }
            Err(error) => {
                self.is_over = true;
                return Err(error);
            }
        };
        match self
            .table
            .entry_in(self.offset, body, &self.known, &self.bases)
        {
            Ok(entry) => {
                self.known.note(&entry);
                self.offset = input.offset();
                Ok(Some(entry))
            }
            Err(error) => {
                self.is_over = true;
                Err(error)
            }
        }
    }
}
