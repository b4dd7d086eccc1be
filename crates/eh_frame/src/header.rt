//! The header of a frame table, and its table of descriptions.

ghost use Rattle.std.specs.Prelude.{◌≡◌, ◌+◌, ◌<◌, ◌≤◌, Some};
ghost use Rattle.std.specs.Option.{option_map};
ghost use Rattle.unwind_definitions.specs.Pointers.{Bases as SpecBases, format_of};
ghost use Rattle.unwind_definitions.specs.Header.{header, pair_at, pair_count, pair_from, table_in};
ghost use Rattle.unwind_definitions.specs.Header.{width_of};
ghost use Rattle.unwind_definitions.specs.PointerEncodings.{datarel_sdata4};
ghost use Rattle.encoded_pointers.specs.Readers.{Answers, GivesOr};
ghost use Rattle.encoded_pointers.specs.CursorViews.{at};
ghost use Rattle.encoded_pointers.specs.PointerViews.{bases_of, pointer_of};

use encoded_pointers::constants::{
    DW_EH_PE_ABSPTR, DW_EH_PE_DATAREL, DW_EH_PE_SDATA2, DW_EH_PE_SDATA4, DW_EH_PE_SDATA8,
    DW_EH_PE_UDATA2, DW_EH_PE_UDATA4, DW_EH_PE_UDATA8,
};
use encoded_pointers::{
    Bases, Cursor, DwEhPe, Pointer, parse_direct_pointer, parse_encoded_pointer,
    parse_pointer_encoding, read_value,
};
use memory_image::{Ledger, Steps};
use unwind_definitions::Error;

// The one version of a header.
const VERSION: u8 = 1;

// How linkers spell the addresses of a header's table: four signed bytes, relative to the header.
const HEADER_RELATIVE: DwEhPe = DwEhPe(DW_EH_PE_DATAREL | DW_EH_PE_SDATA4);

/// The header of a frame table: the bytes of `.eh_frame_hdr`. It says where the frame table is, and
/// may have a table by which a description is searched.
///
/// Source: LSB, section on `.eh_frame_hdr`.
#[derive(Clone, Copy)]
pub struct EhFrameHdr<'a> {
    eh_frame_ptr: Pointer,
    count: u64,
    encoding: DwEhPe,
    bases: Bases,
    // from the first entry on
    entries: Cursor<'a>,
}

impl<'a> EhFrameHdr<'a> {
    ghost use Rattle.eh_frame.specs.HeaderViews.{header_of, pairs_of};

    /// Reads a header from its bytes, the first of which has the address `address`.
    ///
    /// `bases` is what its pointers may be relative to; what is relative to the data is relative to
    /// `address` here. The table's entries aren't read.
    ///
    /// # Errors
    ///
    /// The first fault from left to right:
    ///
    /// - `UnknownVersion` where the version isn't 1;
    /// - that of an encoding, which [`parse_pointer_encoding`] tells, of the pointer to the frame
    ///   table, of the count and of the table;
    /// - that of the pointer, which [`parse_encoded_pointer`] tells;
    /// - `UnsupportedPointerEncoding` where the encoding of the count is more than a format, and
    ///   that of reading the count. Where the count or the table is omitted the count is 0, and
    ///   isn't read.
    pub fn parse(bytes: &'a [u8], address: u64, bases: &Bases) -> Result<EhFrameHdr<'a>, Error>
        ensures { Answers header_of result
            (header (bases_of bases.now)
            (record { base = address; offset = 0; bytes = bytes.now })) }
    {
        let bases = Bases {
            data_base: Some(address),
            ..*bases
        };
        let mut input = Cursor::new(bytes, address);
        if input.read_u8()? != VERSION {
            return Err(Error::UnknownVersion);
        }
        let pointer_encoding = parse_pointer_encoding(&mut input)?;
        let count_encoding = parse_pointer_encoding(&mut input)?;
        let encoding = parse_pointer_encoding(&mut input)?;
        let eh_frame_ptr = parse_encoded_pointer(pointer_encoding, &bases, &mut input)?;
        let count = read_count(count_encoding, encoding, &mut input)?;
        Ok(EhFrameHdr {
            eh_frame_ptr,
            count,
            encoding,
            bases,
            entries: input,
        })
    }

    /// The pointer to the frame table.
    pub fn eh_frame_ptr(&self) -> Pointer
        ensures { pointer_of result ≡ (header_of self.now).frame }
    {
        self.eh_frame_ptr
    }

    /// The table by which a description is searched. `None` exactly where the count is 0 or
    /// omitted, or where the format of the table's addresses is omitted or of variable length.
    pub fn table(&self) -> Option<HdrTable<'a>>
        ensures { option_map pairs_of result ≡ table_in (header_of self.now) }
    {
        if self.count == 0 {
            return None;
        }
        let width = width_of(self.encoding)?;
        Some(HdrTable {
            count: self.count,
            width,
            encoding: self.encoding,
            bases: self.bases,
            entries: self.entries,
        })
    }
}

/// The table of a header: for each description the address where its function starts and its own
/// address, ascending by the first.
///
/// That it ascends, and that it tells the truth, is the linker's promise, and isn't tested.
/// Source: LSB, section on `.eh_frame_hdr`.
#[derive(Clone, Copy)]
pub struct HdrTable<'a> {
    count: u64,
    // of an address, in bytes
    width: u64,
    encoding: DwEhPe,
    bases: Bases,
    entries: Cursor<'a>,
    ghost is_small: { width ≤ 8 },
}

impl<'a> HdrTable<'a> {
    ghost use Rattle.eh_frame.specs.HeaderViews.{pairs_of};

    /// How many entries the header says that the table has.
    pub fn len(&self) -> u64
        ensures { result ≡ (pairs_of self.now).count }
    {
        self.count
    }

    /// The entry at an index: the address where a function starts, and that of its description.
    ///
    /// It takes one counted step.
    ///
    /// # Errors
    ///
    /// The first fault of reading the two addresses: `UnsupportedPointerEncoding` where they are
    /// aligned or indirect, `UndefinedBase` where they are relative to what isn't known, and
    /// `UnexpectedEof` where the bytes end before the entry does.
    pub fn entry<L: Ledger>(&self, i: u64, steps: &mut Steps<L>) -> Result<(u64, u64), Error>
        requires { i < (pairs_of self.now).count }
        ensures reads { Answers (λ p. p) result (pair_at (pairs_of self.now) i) }
        ensures ticks { steps.new.number ≡ steps.old.number + 1 }
    {
        steps.tick();
        self.pair(i)
    }

    // The two addresses of the entry at an index.
    fn pair(&self, i: u64) -> Result<(u64, u64), Error>
        ensures { Answers (λ p. p) result (pair_at (pairs_of self.now) i) }
    {
        let mut input = self.entries;
        // an entry past the end of the bytes is read at their end
        let before = i.saturating_mul(2 * self.width).min(input.len() as u64);
        input.skip(before)?;
        read_pair(self.encoding, &self.bases, input)
    }
}

// Two addresses, one after the other.
fn read_pair(encoding: DwEhPe, bases: &Bases, input: Cursor) -> Result<(u64, u64), Error>
    ensures { Answers (λ p. p) result (pair_from encoding.0 (bases_of bases.now) (at input.entry)) }
{
    match bases.data_base {
        Some(base) if encoding == HEADER_RELATIVE => read_relative_pair(base, input),
        _ => read_any_pair(encoding, bases, input),
    }
}

// The same by the encoding that linkers choose, relative to the header at `base`.
fn read_relative_pair(base: u64, input: Cursor) -> Result<(u64, u64), Error>
    ensures { (bases : SpecBases) → bases.data_base ≡ Some base →
        Answers (λ p. p) result (pair_from datarel_sdata4 bases (at input.entry)) }
{
    let mut rest = input;
    let start = i64::from(rest.read_i32()?).cast_unsigned();
    let description = i64::from(rest.read_i32()?).cast_unsigned();
    Ok((base.wrapping_add(start), base.wrapping_add(description)))
}

// The same by any encoding.
fn read_any_pair(encoding: DwEhPe, bases: &Bases, input: Cursor) -> Result<(u64, u64), Error>
    ensures { Answers (λ p. p) result (pair_from encoding.0 (bases_of bases.now) (at input.entry)) }
{
    let mut rest = input;
    let start = parse_direct_pointer(encoding, bases, &mut rest)?;
    let description = parse_direct_pointer(encoding, bases, &mut rest)?;
    Ok((start, description))
}

// How many entries a table has, by the encodings of the count and of the table's addresses. After a
// fault the cursor is unspecified.
fn read_count(encoding: DwEhPe, table: DwEhPe, input: &mut Cursor) -> Result<u64, Error>
    ensures { GivesOr (λ x. x) result (pair_count encoding.0 table.0 (at input.old))
        (at input.new) }
{
    if encoding.is_absent() || table.is_absent() {
        return Ok(0);
    }
    if encoding.format() != encoding {
        return Err(Error::UnsupportedPointerEncoding);
    }
    read_value(encoding, input)
}

// How many bytes an address takes, by its encoding. `None` where that varies, or there is none.
fn width_of(encoding: DwEhPe) -> Option<u64>
    ensures { result ≡ width_of (format_of encoding.0) }
{
    match encoding.format().0 {
        DW_EH_PE_UDATA2 | DW_EH_PE_SDATA2 => Some(2),
        DW_EH_PE_UDATA4 | DW_EH_PE_SDATA4 => Some(4),
        DW_EH_PE_ABSPTR | DW_EH_PE_UDATA8 | DW_EH_PE_SDATA8 => Some(8),
        _ => None,
    }
}
