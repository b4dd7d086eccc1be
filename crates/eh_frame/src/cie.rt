//! Common information entries: what the descriptions of several functions share.

ghost use Rattle.std.specs.Prelude.{◌≡◌};
ghost use Rattle.unwind_definitions.specs.Augmentation.{is_version, letters_in};
ghost use Rattle.unwind_definitions.specs.Entries.{return_column, sizes};
ghost use Rattle.encoded_pointers.specs.Readers.{GivesOr};
ghost use Rattle.encoded_pointers.specs.CursorViews.{at};
ghost use Rattle.eh_frame.specs.Letters.{Tells, letters_of};

use crate::augmentation::{Letters, is_known, read_augmentation_data};
use encoded_pointers::{Bases, Cursor, DwEhPe, Pointer};
use frame_rows::{Coding, Register, read_register};
use unwind_definitions::Error;

/// A common information entry (CIE): what the frame description entries that name it share.
///
/// Source: LSB, section on `.eh_frame`; DWARF 5 section 6.4.1.
#[derive(Clone, Copy)]
pub struct Cie<'a> {
    offset: u64,
    code_alignment: u64,
    // a word: numbers below 0 count from 2^64
    data_alignment: u64,
    version: u8,
    return_column: Register,
    augmentation: &'a [u8],
    letters: Letters,
    program: Cursor<'a>,
    ghost told: { Tells (letters_in augmentation.now) (letters_of letters) },
}

impl<'a> Cie<'a> {
    ghost use Rattle.std.specs.Prelude.{is_some};
    ghost use Rattle.std.specs.Option.{option_map};
    ghost use Rattle.std.specs.Int.{w64, cast_unsigned};
    ghost use Rattle.unwind_definitions.specs.Augmentation.{address_letter, has_letter};
    ghost use Rattle.unwind_definitions.specs.Augmentation.{language_letter};
    ghost use Rattle.unwind_definitions.specs.Augmentation.{personality_letter, signal_letter};
    ghost use Rattle.unwind_definitions.specs.Entries.{cie_body, address_encoding, coding_of};
    ghost use Rattle.frame_rows.specs.InstructionViews.{coding_in};
    ghost use Rattle.encoded_pointers.specs.Readers.{Answers};
    ghost use Rattle.encoded_pointers.specs.PointerViews.{bases_of, pointer_of};
    ghost use Rattle.eh_frame.specs.Letters.{byte_of};
    ghost use Rattle.eh_frame.specs.EntryViews.{cie_of};

    // What stands after the first four bytes of the entry at `offset`.
    #[inline(never)]
    pub(crate) fn read(offset: u64, body: Cursor<'a>, bases: &Bases) -> Result<Cie<'a>, Error>
        ensures { Answers cie_of result (cie_body (bases_of bases.now) offset (at body.entry)) }
    {
        let mut input = body;
        let version = input.read_u8()?;
        if !is_known_version(version) {
            return Err(Error::UnknownVersion);
        }
        let augmentation = input.read_text()?;
        if !is_known(augmentation) {
            return Err(Error::UnknownAugmentation);
        }
        check_sizes(version, &mut input)?;
        let code_alignment = input.read_uleb128()?;
        let data_alignment = input.read_sleb128_word()?;
        let return_column = read_return_column(version, &mut input)?;
        let letters = read_augmentation_data(augmentation, bases, &mut input)?;
        Ok(Cie {
            offset,
            version,
            code_alignment,
            data_alignment,
            return_column,
            augmentation,
            letters,
            program: input,
        })
    }

    /// How many bytes of the table stand before the entry.
    pub fn offset(&self) -> u64
        ensures { result ≡ (cie_of self.now).offset }
    {
        self.offset
    }

    /// The version of the entry's format: 1, 3 or 4.
    pub fn version(&self) -> u8
        ensures { result ≡ (cie_of self.now).version }
    {
        self.version
    }

    /// What the advances of a program are multiplied by, in bytes.
    pub fn code_alignment(&self) -> u64
        ensures { result ≡ (cie_of self.now).code_factor }
    {
        self.code_alignment
    }

    /// What the offsets of a program are multiplied by, in bytes.
    pub fn data_alignment(&self) -> i64
        ensures { cast_unsigned w64 result ≡ (cie_of self.now).data_factor }
    {
        self.data_alignment.cast_signed()
    }

    // The same as a word: numbers below 0 count from 2^64.
    pub(crate) fn data_factor(&self) -> u64
        ensures { result ≡ (cie_of self.now).data_factor }
    {
        self.data_alignment
    }

    /// The column whose rule says where the return address is.
    pub fn return_column(&self) -> Register
        ensures { result.0 ≡ (cie_of self.now).return_column }
    {
        self.return_column
    }

    /// Whether the functions of its descriptions are entered by a signal's delivery: the
    /// augmentation has an `S`.
    pub fn is_signal_trampoline(&self) -> bool
        ensures signal { result ≡ (cie_of self.now).letters.signal }
        ensures letter { result ≡ has_letter signal_letter (cie_of self.now).augmentation }
    {
        self.letters.is_signal
    }

    /// The instructions that the rows of each description begin with, in bytes.
    pub fn program(&self) -> &'a [u8]
        ensures { result.now ≡ (cie_of self.now).program.bytes }
    {
        self.program.bytes()
    }

    // The same with their place in the table.
    pub(crate) fn instructions(&self) -> Cursor<'a>
        ensures { at result ≡ (cie_of self.now).program }
    {
        self.program
    }

    /// The augmentation, without its zero byte: which fields the entry and its descriptions have
    /// beside those that all have.
    pub fn augmentation(&self) -> &'a [u8]
        ensures { result.now ≡ (cie_of self.now).augmentation }
    {
        self.augmentation
    }

    // How the operands in the programs of the entry and of its descriptions are read.
    pub(crate) fn coding<'b>(&self, bases: &'b Bases) -> Coding<'b>
        ensures { coding_in result ≡ coding_of (bases_of bases.now) (cie_of self.now) }
    {
        Coding {
            code_factor: self.code_alignment,
            data_factor: self.data_alignment,
            address: self.start_encoding(),
            bases,
        }
    }

    /// The personality: the routine that reads the language tables of the descriptions. `None`
    /// exactly where the augmentation has no `P`.
    pub fn personality(&self) -> Option<Pointer>
        ensures pointer { option_map pointer_of result ≡ option_map
            (λ p. p.1) (cie_of self.now).letters.personality }
        ensures letter { is_some result ≡ has_letter personality_letter
            (cie_of self.now).augmentation }
    {
        self.letters
            .personality
            .map(|personality| personality.pointer)
    }

    /// How the personality is encoded. `None` exactly where the augmentation has no `P`.
    pub fn personality_encoding(&self) -> Option<DwEhPe>
        ensures encoding { option_map byte_of result ≡ option_map
            (λ p. p.0) (cie_of self.now).letters.personality }
        ensures letter { is_some result ≡ has_letter personality_letter
            (cie_of self.now).augmentation }
    {
        self.letters
            .personality
            .map(|personality| personality.encoding)
    }

    /// How the descriptions encode the pointers to their language tables. `None` exactly where the
    /// augmentation has no `L`.
    pub fn lsda_encoding(&self) -> Option<DwEhPe>
        ensures encoding { option_map byte_of result ≡ (cie_of self.now).letters.language }
        ensures letter { is_some result ≡ has_letter language_letter
            (cie_of self.now).augmentation }
    {
        self.letters.language
    }

    /// How the descriptions encode the addresses of their functions. `None` exactly where the
    /// augmentation has no `R`: they are whole words then.
    pub fn address_encoding(&self) -> Option<DwEhPe>
        ensures encoding { option_map byte_of result ≡ (cie_of self.now).letters.address }
        ensures letter { is_some result ≡ has_letter address_letter (cie_of self.now).augmentation }
    {
        self.letters.address
    }

    // How the addresses of a description are encoded, whether the augmentation says it or not.
    pub(crate) fn start_encoding(&self) -> DwEhPe
        ensures { result.0 ≡ address_encoding (cie_of self.now) }
    {
        self.letters.address.unwrap_or(DwEhPe::ABSPTR)
    }
}

fn is_known_version(version: u8) -> bool
    ensures { result ≡ is_version version }
{
    matches!(version, 1 | 3 | 4)
}

// Version 4 names the sizes of addresses and of segments, which have to be 8 and 0.
fn check_sizes(version: u8, input: &mut Cursor) -> Result<(), Error>
    ensures { GivesOr (λ done. tt) result (sizes version (at input.old)) (at input.new) }
{
    if version != 4 {
        return Ok(());
    }
    if input.read_u8()? != 8 || input.read_u8()? != 0 {
        return Err(Error::UnsupportedAddressSize);
    }
    Ok(())
}

// A byte in version 1, and an unsigned LEB128 number in later ones.
fn read_return_column(version: u8, input: &mut Cursor) -> Result<Register, Error>
    ensures { GivesOr (λ r. r.0) result (return_column version (at input.old)) (at input.new) }
{
    if version == 1 {
        return Ok(Register(input.read_u8()? as u16));
    }
    read_register(input)
}
