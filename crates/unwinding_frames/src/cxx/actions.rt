//! What a C++ function asks of an exception: the chain of action records that a call site leads to.

ghost use Rattle.std.specs.Prelude.{◌≡◌, ◌==◌, ◌||◌, false, length};
ghost use Rattle.std.specs.Option.{option_map};
ghost use Rattle.memory_image.specs.Results.{result_map};
ghost use Rattle.unwind_definitions.specs.LanguageTable.{input_at};
ghost use Rattle.encoded_pointers.specs.PointerViews.{bases_of};
ghost use Rattle.encoded_pointers.specs.CursorViews.{at};
ghost use Rattle.unwinding_frames.specs.ContextSeen.{language_place_of};
ghost use Rattle.unwinding_frames.specs.LanguageViews.{answer_seen, site_of};
ghost use Rattle.unwinding_frames.specs.CxxTables.{action_record, chain_from, cxx_place_action};
ghost use Rattle.unwinding_frames.specs.CxxTables.{cxx_search, cxx_site_action, entered};
ghost use Rattle.unwinding_frames.specs.CxxTables.{indexed_action};
ghost use Rattle.unwinding_frames.specs.CxxTables.{next_record, record_takes, specification_takes};
ghost use Rattle.unwinding_frames.specs.CxxTables.{untaken};
ghost use Rattle.unwinding_frames.specs.CxxViews.{cxx_action_of, exception_of, record_of};
ghost use Rattle.unwinding_frames.specs.CxxViews.{table_of, types_of};

use crate::cxx::error::CxxError;
use crate::cxx::table::CxxTable;
use crate::cxx::types::{Exception, Types};
use crate::frame::StepError;
use crate::language_table::{CallSite, input_at, sum};
use crate::place::Place;
use eh_frame::Bases;
use encoded_pointers::Cursor;
use memory_image::MemoryImage;

/// What a C++ function asks of a frame that is stopped in a call which an exception leaves.
///
/// Source: Itanium C++ ABI, exception handling, level II, section 2.5.
#[derive(Clone, Copy, Debug, PartialEq, Eq)]
pub enum CxxAction {
    /// Nothing: the unwinding goes on to the caller.
    None,
    /// To enter the landing pad at this address for a cleanup, and then to go on.
    Cleanup(u64),
    /// To enter the landing pad at this address for a handler or a violated exception
    /// specification, and its number, as a word: the index of the handler's type, or below 0 that of
    /// the specification. The landing pad finds it in the second data register.
    Handler(u64, u64),
    /// To end the program: no exception may leave the call, since no call site holds its address, or
    /// a specification takes an exception that isn't native, by libstdc++. By libstdc++ the cleanups
    /// of the frames inside run first, by libc++abi none.
    Terminate,
}

/// An action record.
#[derive(Clone, Copy)]
struct ActionRecord {
    // 0 for a cleanup, the index of a handler's type, or below 0 a specification's
    filter: u64,
    // how far from this distance's first byte the next record begins, 0 after the last
    distance: u64,
    // how far from the action table's first byte that is
    counted_from: u64,
}

/// Numbers of action records are words: those below 0 count from 2^64.
const LEAST_NEGATIVE: u64 = 1 << 63;

/// What a C++ function asks of a frame of it that is stopped in a call at an address, by the
/// language table at a place, where an exception leaves the call. `None` where the place has no
/// table.
///
/// The call site that holds the address leads to a chain of action records, of which the first that
/// takes the exception decides: a handler of one of its types, or of all, or a specification that
/// it violates. Where none does, a cleanup is asked if one stands in the chain. What specifications
/// do with an exception that isn't native goes by its [`CxxRuntime`](crate::CxxRuntime).
/// Source: Itanium C++ ABI, exception handling, level II, section 2.5.
///
/// # Errors
///
/// The first that holds in the order of reading. What stands after what decides isn't read.
///
/// - `Table` and `Unmapped` as of [`find_eh_action`](crate::find_eh_action), also for the entries of
///   types, and `Table(UnsupportedPointerEncoding)` where these have no fixed size;
/// - `NoTypes` where a record names a type, or a list of types that is read, and the table has none;
/// - `TypeOutside` with the index where a type's entry would begin below the address 0;
/// - `RecordOutside` where an index or a distance leads out of the action table;
/// - `RecordsLoop` where the chain has more records than the action table has bytes.
pub fn find_cxx_action_at(
    image: &MemoryImage<'_>,
    place: &Place,
    exception: Exception<'_>,
    address: u64,
) -> Result<CxxAction, CxxError>
    ensures { result_map cxx_action_of result ≡ cxx_place_action image.now
        (exception_of exception.entry) (language_place_of place.now) address }
{
    if place.lsda == 0 {
        return Ok(CxxAction::None);
    }
    let bases = Bases {
        func: Some(place.start),
        ..place.bases
    };
    let found = action_at(image, &bases, exception, place.start, place.lsda, address)?;
    Ok(found.entered_by(exception))
}

impl CxxAction {
    /// What is done of it for an exception. At a specification that takes it the program may end
    /// before the landing pad is entered.
    fn entered_by(self, exception: Exception<'_>) -> CxxAction
        ensures { cxx_action_of result ≡ entered (exception_of exception.entry) (cxx_action_of self) }
    {
        match self {
            CxxAction::Handler(pad, filter) => {
                let ends = exception.runtime.ends_at_specifications(exception.kind);
                if ends && LEAST_NEGATIVE <= filter {
                    CxxAction::Terminate
                } else {
                    CxxAction::Handler(pad, filter)
                }
            }
            action => action,
        }
    }
}

/// What the language table at `table` of the function at `start` asks at an address.
#[tactic(auto, unfolding(crate::specs::CxxTables::cxx_search))]
fn action_at(
    image: &MemoryImage<'_>,
    bases: &Bases,
    exception: Exception<'_>,
    start: u64,
    table: u64,
    address: u64,
) -> Result<CxxAction, CxxError>
    ensures { result_map cxx_action_of result ≡ cxx_search image.now (bases_of bases.now)
        (exception_of exception.entry) start address (input_at image.now table) }
{
    let table = CxxTable::read(image, bases, start, input_at(image, table))?;
    let site = table.deciding_site(image, bases, start, address)?;
    table.site_action(image, bases, exception, site)
}

impl<'a> CxxTable<'a> {
    /// What the call site that decides asks.
    fn site_action(
        &self,
        image: &MemoryImage<'_>,
        bases: &Bases,
        exception: Exception<'_>,
        site: Option<CallSite>,
    ) -> Result<CxxAction, CxxError>
        ensures { result_map cxx_action_of result ≡ cxx_site_action image.now (bases_of bases.now)
            (exception_of exception.entry) (table_of self.now) (option_map site_of site) }
    {
        match site {
            None => Ok(CxxAction::Terminate),
            Some(site) if site.pad == 0 => Ok(CxxAction::None),
            Some(site) => {
                let pad = sum(self.pad_base, site.pad)?;
                self.indexed_action(image, bases, exception, pad, site.index)
            }
        }
    }

    /// What the chain of an index into the action table asks.
    fn indexed_action(
        &self,
        image: &MemoryImage<'_>,
        bases: &Bases,
        exception: Exception<'_>,
        pad: u64,
        index: u64,
    ) -> Result<CxxAction, CxxError>
        ensures { result_map cxx_action_of result ≡ indexed_action image.now (bases_of bases.now)
            (exception_of exception.entry) (table_of self.now) pad index }
    {
        if index == 0 {
            return Ok(CxxAction::Cleanup(pad));
        }
        if index - 1 >= self.actions.len() as u64 {
            return Err(CxxError::RecordOutside);
        }
        self.chain_action(image, bases, exception, pad, index - 1)
    }

    /// What the chain from the record at `first` on asks.
    fn chain_action(
        &self,
        image: &MemoryImage<'_>,
        bases: &Bases,
        exception: Exception<'_>,
        pad: u64,
        first: u64,
    ) -> Result<CxxAction, CxxError>
        ensures { result_map cxx_action_of result ≡ chain_from (length (at self.now.actions).bytes)
            image.now (bases_of bases.now) (exception_of exception.entry) (table_of self.now) pad first
            false }
    {
        let mut place = first;
        let mut met_cleanup = false;
        let mut turns = self.actions.len();
        while turns > 0 {
            turns -= 1;
            let record = ActionRecord::read(self.actions, place)?;
            if record.takes(image, bases, exception, self.types)? {
                return Ok(CxxAction::Handler(pad, record.filter));
            }
            met_cleanup = record.meets_cleanup(met_cleanup);
            if record.distance == 0 {
                return Ok(untaken(pad, met_cleanup));
            }
            place = record.next(self.actions.len() as u64)?;
        }
        Err(CxxError::RecordsLoop)
    }
}

/// Whether the specification whose list begins so many bytes after the types' end takes an exception.
/// Where that is decided unread, the table need have no types.
fn specification_takes(
    image: &MemoryImage<'_>,
    bases: &Bases,
    exception: Exception<'_>,
    types: Option<Types>,
    offset: u64,
) -> Result<bool, CxxError>
    ensures { result ≡ specification_takes image.now (bases_of bases.now)
        (exception_of exception.entry) (option_map types_of types) offset }
{
    match exception.runtime.unread(exception.kind) {
        Some(taken) => Ok(taken),
        None => {
            let types = types.ok_or(CxxError::NoTypes)?;
            types.violates(image, bases, exception, offset)
        }
    }
}

/// What a chain asks that no record of it takes.
fn untaken(pad: u64, met_cleanup: bool) -> CxxAction
    ensures { cxx_action_of result ≡ untaken pad met_cleanup }
{
    if met_cleanup {
        CxxAction::Cleanup(pad)
    } else {
        CxxAction::None
    }
}

impl ActionRecord {
    /// The record that begins so far from the action table's first byte.
    fn read(actions: Cursor<'_>, place: u64) -> Result<ActionRecord, StepError>
        ensures { answer_seen record_of result ≡ action_record (at actions.entry) place }
    {
        let mut rest = actions;
        rest.skip(place)?;
        let filter = rest.read_sleb128_word()?;
        let counted_from = actions.len().saturating_sub(rest.len()) as u64;
        let distance = rest.read_sleb128_word()?;
        Ok(ActionRecord {
            filter,
            distance,
            counted_from,
        })
    }

    /// Whether a cleanup was met, up to this record.
    fn meets_cleanup(&self, before: bool) -> bool
        ensures { result ≡ (before || (self.now.filter == 0)) }
    {
        before || self.filter == 0
    }

    /// Whether it takes an exception.
    fn takes(
        &self,
        image: &MemoryImage<'_>,
        bases: &Bases,
        exception: Exception<'_>,
        types: Option<Types>,
    ) -> Result<bool, CxxError>
        ensures { result ≡ record_takes image.now (bases_of bases.now) (exception_of exception.entry)
            (option_map types_of types) self.now.filter }
    {
        if self.filter == 0 {
            return Ok(false);
        }
        if self.filter < LEAST_NEGATIVE {
            let types = types.ok_or(CxxError::NoTypes)?;
            types.catches(image, bases, exception, self.filter)
        } else {
            specification_takes(image, bases, exception, types, u64::MAX - self.filter)
        }
    }

    /// Where the next record begins, which is inside the action table of this size.
    fn next(&self, size: u64) -> Result<u64, CxxError>
        ensures { result ≡ next_record size (record_of self.now) }
    {
        if self.distance < LEAST_NEGATIVE {
            match self.counted_from.checked_add(self.distance) {
                Some(place) if place < size => Ok(place),
                _ => Err(CxxError::RecordOutside),
            }
        } else {
            let back = self.distance.wrapping_neg();
            self.counted_from
                .checked_sub(back)
                .ok_or(CxxError::RecordOutside)
        }
    }
}
