//! The entries of a frame table, one after another.

ghost use Rattle.std.specs.Prelude.{◌≡◌, ◌≢◌, ◌↔◌, IfErr, IfOk, IsTrue};
ghost use Rattle.std.specs.Prelude.{Result, Some, false, map};
ghost use Rattle.std.specs.List.{AllByRecursion};
ghost use Rattle.std.specs.Result.{IsErrOf};
ghost use Rattle.std.specs.Option.{option_map, option_map_or};
ghost use Rattle.unwind_definitions.specs.Input.{skip};
ghost use Rattle.unwind_definitions.specs.Entries.{Fde as Described, body, length_after, cie_at, cie_body};
ghost use Rattle.unwind_definitions.specs.Entries.{cie_in};
ghost use Rattle.unwind_definitions.specs.Entries.{entry_in};
ghost use Rattle.unwind_definitions.specs.Row.{covers_pc};
ghost use Rattle.unwind_definitions.specs.Scan.{found_or, scan};
ghost use Rattle.unwind_definitions.specs.HeaderSearch.{fde_at, fde_at_address};
ghost use Rattle.encoded_pointers.specs.Readers.{GivesOr, Answers};
ghost use Rattle.eh_frame.specs.Shared.{cie_of_entry, StandsIn};
ghost use Rattle.eh_frame.specs.Standing.{AreStanding, IsBodyAt, covering_in, description_in, naming};
ghost use Rattle.eh_frame.specs.Search.{IsFirst, NoneContains, IsUnreadable};
ghost use Rattle.encoded_pointers.specs.CursorViews.{at};
ghost use Rattle.encoded_pointers.specs.PointerViews.{bases_of};
ghost use Rattle.eh_frame.specs.Listing.{listing_of};
ghost use Rattle.eh_frame.specs.FdeLists.{AddsCie, ListsCie, ListsEntry, ListsFdes};
ghost use Rattle.eh_frame.specs.EntryViews.{cie_of, fde_of, entry_of, table_of};

use crate::cie::Cie;
use crate::fde::Fde;
use crate::fde_list::FdeList;
use crate::known_cies::KnownCies;
use crate::listing::Entries;
use encoded_pointers::{Bases, Cursor};
use std::alloc::{AllocError, Global};
use unwind_definitions::Error;

/// A frame table: the bytes of `.eh_frame`.
///
/// Source: LSB, section on `.eh_frame`.
#[derive(Clone, Copy)]
pub struct EhFrame<'a> {
    bytes: &'a [u8],
    address: u64,
}

/// An entry of a frame table.
#[derive(Clone, Copy)]
pub enum Entry<'a> {
    /// A common information entry: what several descriptions share.
    Cie(Cie<'a>),
    /// A frame description entry: the description of a function.
    Fde(Fde<'a>),
}

impl<'a> EhFrame<'a> {
    /// The table whose bytes are `bytes`, the first of which has the address `address`.
    pub fn new(bytes: &'a [u8], address: u64) -> EhFrame<'a>
        ensures { table_of result ≡ record { base = address; offset = 0; bytes = bytes.now } }
    {
        EhFrame { bytes, address }
    }

    /// The address of the table's first byte.
    pub fn address(&self) -> u64
        ensures { result ≡ (table_of self.now).base }
    {
        self.address
    }

    /// The entries of the table, from its first byte on. `bases` is what their pointers may be
    /// relative to.
    pub fn entries(&self, bases: &Bases) -> Entries<'a>
        ensures { listing_of result ≡ record
            { table = table_of self.now; bases = bases_of bases.now; offset = 0; is_over = false } }
    {
        Entries::new(*self, *bases)
    }

    /// The first frame description entry, in the table's order, that contains the address `pc`.
    ///
    /// Entries are read one after another, each once, and a description's common information entry
    /// with it, where it isn't one of the last two. `bases` is what their pointers may be relative
    /// to.
    ///
    /// # Errors
    ///
    /// The error of the first entry before it that can't be read, or
    /// `NoUnwindInfoForAddress` where all entries can be read and none contains `pc`.
    pub fn fde_for_address(&self, bases: &Bases, pc: u64) -> Result<Fde<'a>, Error>
        ensures scan { Answers fde_of result (scan (bases_of bases.now) (table_of self.now) pc) }
        ensures contains { IfOk result (λ fde. IsTrue (covers_pc (fde_of fde) pc)) }
        ensures first { IfOk result (λ fde.
            IsFirst (bases_of bases.now) (table_of self.now) pc 0 (fde_of fde)) }
        ensures fault { IfErr result (λ e. e ≢ Error.NoUnwindInfoForAddress →
            IsUnreadable (bases_of bases.now) (table_of self.now) pc 0 e) }
        ensures none { IsErrOf result Error.NoUnwindInfoForAddress ↔
            NoneContains (bases_of bases.now) (table_of self.now) pc 0 }
    {
        self.scan(bases, pc)
    }

    /// The frame description entry at an offset of the table. `bases` is what its pointers may be
    /// relative to.
    ///
    /// # Errors
    ///
    /// - `UnexpectedEof` where the offset is past the table's end;
    /// - the error of the entry, where it can't be read;
    /// - `NotFde` where it is a common information entry, or the end of the list.
    pub fn fde_at(&self, bases: &Bases, offset: u64) -> Result<Fde<'a>, Error>
        ensures { Answers fde_of result
            (fde_at (bases_of bases.now) (table_of self.now) offset) }
    {
        if offset > self.bytes.len() as u64 {
            return Err(Error::UnexpectedEof);
        }
        let mut input = self.from(offset);
        match read_body(&mut input)? {
            None => Err(Error::NotFde),
            Some(body) => self.fde_in(offset, body, bases),
        }
    }

    // The description at `offset`, whose body is `body`.
    #[inline(always)]
    fn fde_in(&self, offset: u64, body: Cursor<'a>, bases: &Bases) -> Result<Fde<'a>, Error>
        ensures { Answers fde_of result
            (description_in (bases_of bases.now) (table_of self.now) offset (at body.entry)) }
    {
        let origin = body.offset();
        let mut input = body;
        let id = input.read_u32()? as u64;
        if id == 0 {
            // What can't be read is told before what it isn't.
            Cie::read(offset, input, bases)?;
            return Err(Error::NotFde);
        }
        if id > origin {
            return Err(Error::NotCie);
        }
        let cie = self.cie_at(origin - id, bases)?;
        Fde::read(&cie, offset, input, bases)
    }

    // The same at an address, which isn't below the table's.
    pub(crate) fn fde_at_address(&self, bases: &Bases, address: u64) -> Result<Fde<'a>, Error>
        ensures { Answers fde_of result
            (fde_at_address (bases_of bases.now) (table_of self.now) address) }
    {
        if address < self.address {
            return Err(Error::UnexpectedEof);
        }
        self.fde_at(bases, address - self.address)
    }

    // The descriptions whose ranges aren't empty, in the table's order. `None` where an entry can't
    // be read.
    pub(crate) fn nonempty_fdes(
        &self,
        alloc: Global,
        bases: &Bases,
    ) -> Result<Option<FdeList<'a>>, AllocError>
        ensures { IfOk result (λ list.
            ListsFdes (bases_of bases.now) (table_of self.now) list) }
    {
        let mut list = FdeList::for_table(alloc, self.bytes.len())?;
        let mut offset = 0;
        loop {
            let mut input = self.from(offset);
            match read_body(&mut input) {
                Err(_) => return Ok(None),
                Ok(None) => return Ok(Some(list)),
                Ok(Some(body)) => {
                    if !self.list_entry(offset, body, bases, &mut list)? {
                        return Ok(None);
                    }
                    offset = input.offset();
                }
            }
        }
    }

    // Lists the entry at `offset`, whose body is `body`. `false` where it can't be read. A
    // description is read where its common information entry stands in the list, which isn't copied.
    #[inline(always)]
    fn list_entry(
        &self,
        offset: u64,
        body: Cursor<'a>,
        bases: &Bases,
        list: &mut FdeList<'a>,
    ) -> Result<bool, AllocError>
        requires { AllByRecursion (StandsIn (bases_of bases.now) (table_of self.now))
            (map cie_of list.old.cies.items) }
        ensures { IfOk result (λ readable. ListsEntry (bases_of bases.now) (table_of self.now)
            offset (at body.entry) list.old readable list.new) }
    {
        let origin = body.offset();
        let mut input = body;
        let id = match input.read_u32() {
            Ok(id) => id as u64,
            Err(_) => return Ok(false),
        };
        if id == 0 {
            return list_cie(offset, input, bases, list);
        }
        if id > origin {
            return Ok(false);
        }
        match self.collect_by_cie(origin - id, bases, list)? {
            Some(cie) => list.push_fde(cie, offset, input, bases),
            None => Ok(false),
        }
    }

    // The index of the common information entry at an offset, which is read and listed where it
    // isn't yet. `None` where it can't be read.
    #[inline(always)]
    fn collect_by_cie(
        &self,
        offset: u64,
        bases: &Bases,
        list: &mut FdeList<'a>,
    ) -> Result<Option<usize>, AllocError>
        requires { AllByRecursion (StandsIn (bases_of bases.now) (table_of self.now))
            (map cie_of list.old.cies.items) }
        ensures cie { IfOk result (λ index. ListsCie (bases_of bases.now) (table_of self.now)
            offset list.old.cies.items index list.new.cies.items) }
        ensures fdes { list.new.fdes ≡ list.old.fdes }
    {
        match list.recent(offset) {
            Some(index) => Ok(Some(index)),
            None => self.collect_by_other_cie(offset, bases, list),
        }
    }

    // The same where it isn't one of the last two.
    #[inline(never)]
    fn collect_by_other_cie(
        &self,
        offset: u64,
        bases: &Bases,
        list: &mut FdeList<'a>,
    ) -> Result<Option<usize>, AllocError>
        requires { AllByRecursion (StandsIn (bases_of bases.now) (table_of self.now))
            (map cie_of list.old.cies.items) }
        ensures cie { IfOk result (λ index. ListsCie (bases_of bases.now) (table_of self.now)
            offset list.old.cies.items index list.new.cies.items) }
        ensures fdes { list.new.fdes ≡ list.old.fdes }
    {
        if let Some(index) = list.search(offset) {
            return Ok(Some(index));
        }
        match self.cie_at(offset, bases) {
            Ok(cie) => Ok(Some(list.push_cie(cie)?)),
            Err(_) => Ok(None),
        }
    }

    // The first description that contains an address.
    fn scan(&self, bases: &Bases, pc: u64) -> Result<Fde<'a>, Error>
        ensures { Answers fde_of result
            (scan (bases_of bases.now) (table_of self.now) pc) }
    {
        let mut known = KnownCies::new();
        let mut offset = 0;
        loop {
            let mut input = self.from(offset);
            let Some(body) = read_body(&mut input)? else {
                return Err(Error::NoUnwindInfoForAddress);
            };
            if let Some(fde) = self.covering_in(offset, body, pc, &mut known, bases)? {
                return Ok(fde);
            }
            offset = input.offset();
        }
    }

    // The description that the entry at `offset` is, where it contains an address; `body` is the
    // entry's. A common information entry that is read is noted.
    #[inline(always)]
    fn covering_in(
        &self,
        offset: u64,
        body: Cursor<'a>,
        pc: u64,
        known: &mut KnownCies<'a>,
        bases: &Bases,
    ) -> Result<Option<Fde<'a>>, Error>
        requires reads { IsBodyAt (table_of self.now) offset (at body) }
        requires known { AreStanding (bases_of bases.now) (table_of self.now) known.old }
        ensures found { Answers (option_map fde_of) result
            (covering_in (bases_of bases.now) (table_of self.now) offset (at body.entry) pc) }
        ensures known { AreStanding (bases_of bases.now) (table_of self.now) known.new }
    {
        let origin = body.offset();
        let mut input = body;
        let id = input.read_u32()? as u64;
        if id == 0 {
            known.put(Cie::read(offset, input, bases)?);
            return Ok(None);
        }
        if id > origin {
            return Err(Error::NotCie);
        }
        if let Some(cie) = known.get(origin - id) {
            return Fde::read_covering(cie, offset, input, bases, pc);
        }
        let cie = self.cie_at(origin - id, bases)?;
        known.put(cie);
        Fde::read_covering(&cie, offset, input, bases, pc)
    }

    /// The table from an offset on.
    pub(crate) fn from(&self, offset: u64) -> Cursor<'a>
        ensures { at result ≡ skip offset (table_of self.now) }
    {
        Cursor::from_offset(self.bytes, self.address, offset)
    }

    /// The entry at `offset`, whose body is `body`.
    #[inline(always)]
    pub(crate) fn entry_in(
        &self,
        offset: u64,
        body: Cursor<'a>,
        known: &KnownCies<'a>,
        bases: &Bases,
    ) -> Result<Entry<'a>, Error>
        requires { AreStanding (bases_of bases.now) (table_of self.now) known.now }
        ensures { Answers entry_of result
            (entry_in (bases_of bases.now) (table_of self.now) offset (at body.entry)) }
    {
        let place = body.offset();
        let mut input = body;
        let id = input.read_u32()? as u64;
        if id == 0 {
            return Ok(Entry::Cie(Cie::read(offset, input, bases)?));
        }
        if id > place {
            return Err(Error::NotCie);
        }
        match known.get(place - id) {
            Some(cie) => Ok(Entry::Fde(Fde::read(cie, offset, input, bases)?)),
            None => self.entry_of_other(place - id, offset, input, bases),
        }
    }

    // The description at `offset` that names a common information entry which isn't known. `body` is
    // what stands after its first four bytes.
    #[inline(never)]
    fn entry_of_other(
        &self,
        named: u64,
        offset: u64,
        body: Cursor<'a>,
        bases: &Bases,
    ) -> Result<Entry<'a>, Error>
        ensures { Answers entry_of result
            (naming (bases_of bases.now) (table_of self.now) named offset (at body.entry)) }
    {
        let cie = self.cie_at(named, bases)?;
        Ok(Entry::Fde(Fde::read(&cie, offset, body, bases)?))
    }

    // The common information entry at an offset.
    #[inline(never)]
    fn cie_at(&self, offset: u64, bases: &Bases) -> Result<Cie<'a>, Error>
        ensures { Answers cie_of result
            (cie_at (bases_of bases.now) (table_of self.now) offset) }
    {
        let mut input = self.from(offset);
        match read_body(&mut input)? {
            None => Err(Error::NotCie),
            Some(body) => cie_in(offset, body, bases),
        }
    }
}

impl<'a> Entry<'a> {
    /// The offset of the entry itself, or of the one that a description names.
    pub(crate) fn named_offset(&self) -> u64
        ensures { result ≡ (cie_of_entry (entry_of self.now)).offset }
    {
        match self {
            Entry::Cie(cie) => cie.offset(),
            Entry::Fde(fde) => fde.cie_offset(),
        }
    }

    /// The entry itself, or the one that a description names.
    pub(crate) fn named_cie(&self) -> Cie<'a>
        ensures { cie_of result ≡ cie_of_entry (entry_of self.now) }
    {
        match self {
            Entry::Cie(cie) => *cie,
            Entry::Fde(fde) => fde.cie(),
        }
    }
}

// Lists the common information entry at `offset`. `body` is what stands after its first four bytes.
// `false` where it can't be read.
#[inline(never)]
fn list_cie<'a>(
    offset: u64,
    body: Cursor<'a>,
    bases: &Bases,
    list: &mut FdeList<'a>,
) -> Result<bool, AllocError>
    ensures cies { IfOk result (λ readable. AddsCie
        (cie_body (bases_of bases.now) offset (at body.entry))
        list.old.cies.items readable list.new.cies.items) }
    ensures fdes { list.new.fdes ≡ list.old.fdes }
{
    match Cie::read(offset, body, bases) {
        Ok(cie) => {
            list.push_cie(cie)?;
            Ok(true)
        }
        Err(_) => Ok(false),
    }
}

// The common information entry at `offset`, whose body is `body`.
fn cie_in<'a>(offset: u64, body: Cursor<'a>, bases: &Bases) -> Result<Cie<'a>, Error>
    ensures { Answers cie_of result
        (cie_in (bases_of bases.now) offset (Some (at body.entry))) }
{
    let mut input = body;
    let id = input.read_u32()?;
    if id != 0 {
        return Err(Error::NotCie);
    }
    Cie::read(offset, input, bases)
}

/// The body of an entry, `None` at the end of the list: at the end of the table, or at a length of 0.
pub(crate) fn read_body<'a>(input: &mut Cursor<'a>) -> Result<Option<Cursor<'a>>, Error>
    ensures { GivesOr (option_map at) result (body (at input.old)) (at input.new) }
{
    if input.is_empty() {
        return Ok(None);
    }
    let length = input.read_u32()?;
    if length == 0 {
        return Ok(None);
    }
    let length = read_long_length(length, input)?;
    Ok(Some(input.split(length)?))
}

// The length of an entry: what four bytes spell or, where these are all set, the eight after them.
fn read_long_length(short: u32, input: &mut Cursor) -> Result<u64, Error>
    ensures { GivesOr (λ n. n) result (length_after (short, at input.old)) (at input.new) }
{
    if short == u32::MAX {
        return input.read_u64();
    }
    Ok(short as u64)
}
