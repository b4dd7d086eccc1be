//! A description whose common information entry stands in a list.

ghost use Rattle.std.specs.Prelude.{◌≡◌, ◌+◌, ◌<◌, ◌^◌, IfOk, Some, is_some};
ghost use Rattle.std.specs.Option.{option_map};
ghost use Rattle.unwind_definitions.specs.Entries.{fde_data, is_pointing, language_pointer};
ghost use Rattle.unwind_definitions.specs.PointerEncodings.{pcrel_sdata4};
ghost use Rattle.unwind_definitions.specs.Pointers.{Bases as SpecBases, Direct};
ghost use Rattle.unwind_definitions.specs.Pointers.{direct, format_of, pointer, value};
ghost use Rattle.encoded_pointers.specs.Readers.{Answers, GivesOr};
ghost use Rattle.encoded_pointers.specs.CursorViews.{at};
ghost use Rattle.encoded_pointers.specs.PointerViews.{bases_of, pointer_of};
ghost use Rattle.eh_frame.specs.EntryViews.{cie_of};
ghost use Rattle.eh_frame.specs.Letters.{byte_of, letters_of};

use crate::cie::Cie;
use crate::cie_cache::CachedCie;
use encoded_pointers::{
    Bases, Cursor, DwEhPe, Pointer, parse_direct_pointer, parse_encoded_pointer, read_value,
};
use frame_rows::{RowRange, RowTableBuilder};
use std::alloc::AllocError;
use unwind_definitions::Error;

/// A frame description entry whose common information entry stands in a list, so that those of many
/// functions take one's place.
#[derive(Clone, Copy)]
pub(crate) struct IndexedFde<'a> {
    /// The index of the common information entry.
    pub(crate) cie: usize,
    pub(crate) offset: u64,
    pub(crate) initial_address: u64,
    pub(crate) len: u64,
    pub(crate) lsda: Option<Pointer>,
    pub(crate) program: Cursor<'a>,
    ghost ends: { initial_address + len < 2 ^ 64 },
}

impl<'a> IndexedFde<'a> {
    ghost use Rattle.unwind_definitions.specs.Entries.{Cie as Common, fde_body};
    ghost use Rattle.unwind_definitions.specs.Instructions.{Program};
    ghost use Rattle.unwind_definitions.specs.Row.{covers_pc};
    ghost use Rattle.frame_rows.specs.Begun.{HasBegun, HasBegunBefore};
    ghost use Rattle.frame_rows.specs.KeptRows.{Adds};
    ghost use Rattle.eh_frame.specs.FdeLists.{IsTold, fde_with};
    ghost use Rattle.eh_frame.specs.Index.{common_program, end_of, own_program};
    ghost use Rattle.eh_frame.specs.Turns.{ComesBefore, WasBegun};

    /// What stands after the first four bytes of the entry at `offset`, which names `cie`: that
    /// stands at `index` in the list.
    #[inline(always)]
    pub(crate) fn read(
        cie: &Cie<'a>,
        index: usize,
        offset: u64,
        body: Cursor<'a>,
        bases: &Bases,
    ) -> Result<IndexedFde<'a>, Error>
        ensures reads { Answers (fde_with (cie_of cie.now)) result
            (fde_body (bases_of bases.now) (cie_of cie.now) offset (at body.entry)) }
        ensures told { IfOk result (λ fde. IsTold (cie_of cie.now) fde) }
        ensures cie { IfOk result (λ fde. fde.cie ≡ index) }
    {
        let encoding = cie.start_encoding();
        let mut input = body;
        let initial_address = read_start(encoding, bases, &mut input)?;
        let len = read_len(encoding, &mut input)?;
        if len > u64::MAX - initial_address {
            return Err(Error::AddressOverflow);
        }
        let lsda = read_augmentation_data(cie, bases, initial_address, &mut input)?;
        Ok(IndexedFde {
            cie: index,
            offset,
            initial_address,
            len,
            lsda,
            program: input,
        })
    }

    /// The address after the function's last byte.
    pub(crate) fn end(&self) -> u64
        ensures { result ≡ self.now.initial_address + self.now.len }
    {
        self.initial_address + self.len
    }

    /// Whether the function has a byte at the address `pc`.
    pub(crate) fn contains(&self, pc: u64) -> bool
        ensures { (cie : Common) → result ≡ covers_pc (fde_with cie self.now) pc }
    {
        self.initial_address <= pc && pc - self.initial_address < self.len
    }

    /// Adds the function's rows to those of others, and answers which they are: `None` where they
    /// would be too many. `cie` is the common information entry, and `run` says whether its program
    /// was run before.
    #[inline(always)]
    pub(crate) fn add_rows(
        &self,
        cie: &Cie<'a>,
        run: CachedCie,
        bases: &Bases,
        rows: &mut RowTableBuilder<'a>,
    ) -> Result<Option<RowRange>, AllocError>
        requires some { 0 < self.now.len }
        requires begun { WasBegun run rows.old
            (common_program (bases_of bases.now) (fde_with (cie_of cie.now) self.now)) }
        ensures rows { let fde = fde_with (cie_of cie.now) self.now in
            let bases = bases_of bases.now in
            Adds rows.old.limits fde.start (end_of fde) (common_program bases fde)
            (own_program bases fde) rows.old.table result rows.new.table }
        ensures limits { rows.new.limits ≡ rows.old.limits }
        ensures begun { HasBegun rows.new
            (common_program (bases_of bases.now) (fde_with (cie_of cie.now) self.now)) }
        ensures before { (before : Program) → ComesBefore run rows.old before →
            HasBegunBefore rows.new before }
    {
        let (start, end) = (self.initial_address, self.end());
        let coding = cie.coding(bases);
        match run {
            CachedCie::Last => rows.add_next(self.program, coding, start, end),
            CachedCie::BeforeLast => {
                rows.turn();
                rows.add_next(self.program, coding, start, end)
            }
            CachedCie::Other => rows.add(cie.instructions(), self.program, coding, start, end),
        }
    }
}

// Where a function starts. After a fault the cursor is unspecified.
#[inline(always)]
fn read_start(encoding: DwEhPe, bases: &Bases, input: &mut Cursor) -> Result<u64, Error>
    ensures { GivesOr (λ x. x) result (direct encoding.0 (bases_of bases.now) (at input.old))
        (at input.new) }
{
    if encoding == DwEhPe::RELATIVE_SDATA4 {
        return read_relative(input);
    }
    // a copy is read, so that a cursor by which none is needed can stay in registers
    let mut rest = *input;
    let start = parse_direct_pointer(encoding, bases, &mut rest)?;
    *input = rest;
    Ok(start)
}

// How many bytes a function has. After a fault the cursor is unspecified.
#[inline(always)]
fn read_len(encoding: DwEhPe, input: &mut Cursor) -> Result<u64, Error>
    ensures { GivesOr (λ x. x) result (value (format_of encoding.0) (at input.old)) (at input.new) }
{
    if encoding == DwEhPe::RELATIVE_SDATA4 {
        return Ok(i64::from(input.read_i32()?).cast_unsigned());
    }
    let mut rest = *input;
    let len = read_value(encoding, &mut rest)?;
    *input = rest;
    Ok(len)
}

// An address by the encoding that compilers choose: four signed bytes, relative to their place.
#[inline(always)]
fn read_relative(input: &mut Cursor) -> Result<u64, Error>
    ensures direct { (bases : SpecBases) →
        GivesOr (λ x. x) result (direct pcrel_sdata4 bases (at input.old)) (at input.new) }
    ensures pointer { (bases : SpecBases) →
        GivesOr Direct result (pointer pcrel_sdata4 bases (at input.old)) (at input.new) }
{
    let place = input.address();
    let distance = i64::from(input.read_i32()?).cast_unsigned();
    Ok(place.wrapping_add(distance))
}

// The bytes of an augmentation, where there is one: their number, and so many, with the pointer
// to the language table of the function at `start`. After a fault the cursor is unspecified.
#[inline(always)]
fn read_augmentation_data(
    cie: &Cie,
    bases: &Bases,
    start: u64,
    input: &mut Cursor,
) -> Result<Option<Pointer>, Error>
    ensures reads { GivesOr (option_map pointer_of) result
        (fde_data (bases_of bases.now) (cie_of cie.now) start (at input.old)) (at input.new) }
    ensures told { IfOk result
        (λ lsda. is_some lsda ≡ is_pointing (letters_of cie.now.letters).language) }
{
    if cie.augmentation().is_empty() {
        return Ok(None);
    }
    let count = input.read_uleb128()?;
    let block = input.split(count)?;
    read_language_pointer(cie.lsda_encoding(), bases, start, block)
}

// The pointer to the language table of the function at `start`, `None` where the augmentation has
// no `L` or its encoding says that there is none.
#[inline(always)]
fn read_language_pointer(
    encoding: Option<DwEhPe>,
    bases: &Bases,
    start: u64,
    block: Cursor,
) -> Result<Option<Pointer>, Error>
    ensures reads { Answers (option_map pointer_of) result
        (language_pointer (bases_of bases.now) start (option_map byte_of encoding)
        (at block.entry)) }
    ensures told { IfOk result (λ lsda. is_some lsda ≡ is_pointing (option_map byte_of encoding)) }
{
    match encoding {
        Some(encoding) if !encoding.is_absent() => {
            let mut input = block;
            Ok(Some(read_pointer(encoding, bases, start, &mut input)?))
        }
        _ => Ok(None),
    }
}

// A pointer, which may be relative to the function at `start`. After a fault the cursor is
// unspecified.
#[inline(always)]
fn read_pointer(
    encoding: DwEhPe,
    bases: &Bases,
    start: u64,
    input: &mut Cursor,
) -> Result<Pointer, Error>
    ensures { GivesOr pointer_of result
        (pointer encoding.0 (record (bases_of bases.now) { func = Some start }) (at input.old))
        (at input.new) }
{
    if encoding == DwEhPe::RELATIVE_SDATA4 {
        return Ok(Pointer::Direct(read_relative(input)?));
    }
    let mut rest = *input;
    let pointer = read_any_pointer(encoding, bases, start, &mut rest)?;
    *input = rest;
    Ok(pointer)
}

// The same by the general reader.
#[inline(never)]
fn read_any_pointer(
    encoding: DwEhPe,
    bases: &Bases,
    start: u64,
    input: &mut Cursor,
) -> Result<Pointer, Error>
    ensures { GivesOr pointer_of result
        (pointer encoding.0 (record (bases_of bases.now) { func = Some start }) (at input.old))
        (at input.new) }
{
    let bases = Bases {
        func: Some(start),
        ..*bases
    };
    parse_encoded_pointer(encoding, &bases, input)
}
