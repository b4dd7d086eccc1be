//! The types that the handlers and exception specifications of a C++ function name.

ghost use Rattle.std.specs.Prelude.{◌≡◌, ◌+◌, length};
ghost use Rattle.std.specs.Option.{option_map};
ghost use Rattle.unwind_definitions.specs.Pointers.{format_of};
ghost use Rattle.encoded_pointers.specs.PointerViews.{bases_of};
ghost use Rattle.encoded_pointers.specs.CursorViews.{at};
ghost use Rattle.unwinding_frames.specs.LanguageViews.{GivesOr};
ghost use Rattle.unwinding_frames.specs.CxxTables.{allows_from, catches, contains, entry_address};
ghost use Rattle.unwinding_frames.specs.CxxTables.{entry_size, lists_nothing, type_at, type_named};
ghost use Rattle.unwinding_frames.specs.CxxTables.{types_named, violates, violates_list};
ghost use Rattle.unwinding_frames.specs.CxxViews.{exception_of, types_of};

use crate::cxx::error::CxxError;
use crate::cxx::runtime::{CxxRuntime, ExceptionKind};
use crate::frame::StepError;
use crate::language_table::{input_at, read_address, sum};
use eh_frame::{Bases, Error};
use encoded_pointers::constants::*;
use encoded_pointers::{Cursor, DwEhPe, parse_pointer_encoding, read_value};
use memory_image::MemoryImage;

/// An exception as the handlers of C++ functions see it.
///
/// Contracts see these three.
#[derive(Clone, Copy)]
pub struct Exception<'t> {
    /// The addresses of the type descriptions (`std::type_info` objects) by which a handler takes
    /// it: those of its own type and of each accessible base. One that isn't native mostly has none.
    pub types: &'t [u64],
    /// What it is to the runtime whose personality reads the language tables.
    pub kind: ExceptionKind,
    /// That runtime.
    pub runtime: CxxRuntime,
}

impl<'t> Exception<'t> {
    /// Whether a type is one of those by which it is taken.
    fn is_of(self, named: u64) -> bool
        ensures { result ≡ contains (exception_of self.entry).types named }
    {
        self.types.contains(&named)
    }
}

/// Where the types of a language table stand.
#[derive(Clone, Copy)]
pub struct Types {
    encoding: DwEhPe,
    // the address that their entries count down from
    end: u64,
}

impl Types {
    /// The types' encoding and, unless there are none, the distance to their end. After a fault the
    /// cursor is unspecified.
    pub fn read(input: &mut Cursor<'_>) -> Result<Option<Types>, StepError>
        ensures { GivesOr (option_map types_of) result (types_named (at input.old)) (at input.new) }
    {
        let encoding = parse_pointer_encoding(input)?;
        if encoding.is_absent() {
            return Ok(None);
        }
        let distance = input.read_uleb128()?;
        let end = sum(input.address(), distance)?;
        Ok(Some(Types { encoding, end }))
    }

    /// Whether the handler of the type of this index takes an exception. One of no type takes all.
    pub fn catches(
        self,
        image: &MemoryImage<'_>,
        bases: &Bases,
        exception: Exception<'_>,
        index: u64,
    ) -> Result<bool, CxxError>
        ensures { result ≡ catches image.now (bases_of bases.now) (exception_of exception.entry)
            (types_of self) index }
    {
        let named = self.type_at(image, bases, index)?;
        Ok(named == 0 || exception.is_of(named))
    }

    /// Whether an exception violates the specification whose list begins so many bytes after the
    /// types' end, by this list.
    pub fn violates(
        self,
        image: &MemoryImage<'_>,
        bases: &Bases,
        exception: Exception<'_>,
        offset: u64,
    ) -> Result<bool, CxxError>
        ensures { result ≡ violates image.now (bases_of bases.now) (exception_of exception.entry)
            (types_of self) offset }
    {
        let list = input_at(image, sum(self.end, offset)?);
        self.violates_list(image, bases, exception, list)
    }

    /// The same of a list. An exception that isn't native violates an empty list alone.
    fn violates_list(
        self,
        image: &MemoryImage<'_>,
        bases: &Bases,
        exception: Exception<'_>,
        list: Cursor<'_>,
    ) -> Result<bool, CxxError>
        ensures { result ≡ violates_list image.now (bases_of bases.now) (exception_of exception.entry)
            (types_of self) (at list.entry) }
    {
        match exception.kind {
            ExceptionKind::Native => Ok(!self.allows(image, bases, exception, list)?),
            ExceptionKind::Foreign | ExceptionKind::Forced => lists_nothing(list),
        }
    }

    /// Whether one of the types that a list names, before the index 0, is one of the exception's.
    fn allows(
        self,
        image: &MemoryImage<'_>,
        bases: &Bases,
        exception: Exception<'_>,
        list: Cursor<'_>,
    ) -> Result<bool, CxxError>
        ensures { result ≡ allows_from (length (at list.entry).bytes + 1) image.now
            (bases_of bases.now) (exception_of exception.entry) (types_of self) (at list.entry) }
    {
        let mut rest = list;
        loop {
            let index = rest.read_uleb128()?;
            if index == 0 {
                return Ok(false);
            }
            let named = self.type_at(image, bases, index)?;
            if exception.is_of(named) {
                return Ok(true);
            }
        }
    }

    /// The address of the description of the type of this index, 0 where it is none.
    fn type_at(self, image: &MemoryImage<'_>, bases: &Bases, index: u64) -> Result<u64, CxxError>
        ensures { result ≡ type_at image.now (bases_of bases.now) (types_of self) index }
    {
        let entry = input_at(image, self.entry_address(index)?);
        read_type(image, bases, self.encoding, entry)
    }

    /// The address of the entry of this index.
    fn entry_address(self, index: u64) -> Result<u64, CxxError>
        ensures { result ≡ entry_address (types_of self) index }
    {
        let size = entry_size(self.encoding.format())?;
        match index.checked_mul(size) {
            Some(distance) if distance <= self.end => Ok(self.end - distance),
            _ => Err(CxxError::TypeOutside(index)),
        }
    }
}

/// Whether a specification's list has no type.
fn lists_nothing(list: Cursor<'_>) -> Result<bool, CxxError>
    ensures { result ≡ lists_nothing (at list.entry) }
{
    let mut first = list;
    Ok(first.read_uleb128()? == 0)
}

/// How many bytes an entry takes by its format.
fn entry_size(format: DwEhPe) -> Result<u64, CxxError>
    ensures { result ≡ entry_size format.0 }
{
    match format.0 {
        DW_EH_PE_UDATA2 | DW_EH_PE_SDATA2 => Ok(2),
        DW_EH_PE_UDATA4 | DW_EH_PE_SDATA4 => Ok(4),
        DW_EH_PE_ABSPTR | DW_EH_PE_UDATA8 | DW_EH_PE_SDATA8 => Ok(8),
        _ => Err(CxxError::Table(Error::UnsupportedPointerEncoding)),
    }
}

/// The type that an entry names. The number 0 names none, whatever numbers are relative to.
fn read_type(
    image: &MemoryImage<'_>,
    bases: &Bases,
    encoding: DwEhPe,
    entry: Cursor<'_>,
) -> Result<u64, CxxError>
    ensures { result ≡ type_named image.now (bases_of bases.now) encoding.0 (at entry.entry) }
{
    let mut number = entry;
    if read_value(encoding, &mut number)? == 0 {
        return Ok(0);
    }
    let mut pointer = entry;
    Ok(read_address(image, bases, encoding, &mut pointer)?)
}
