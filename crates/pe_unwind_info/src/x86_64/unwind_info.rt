// Unwind records: the header, and what stands after the slots.
ghost use Rattle.std.specs.Prelude.{◌≡◌, ◌%◌};
ghost use Rattle.std.specs.Option.{option_map};
ghost use Rattle.pe_unwind_info.specs.Header.{version_of, flags_of, frame_number, frame_units};
ghost use Rattle.pe_unwind_info.specs.Header.{frame_distance, frame_register_of};
ghost use Rattle.pe_unwind_info.specs.Flags.{flag_bits};
ghost use Rattle.pe_unwind_info.specs.Operations.{slots_left, operations_left};
ghost use Rattle.pe_unwind_info.specs.InfoOperations.{operations_in};
ghost use Rattle.pe_unwind_info.specs.Frame.{chained_of};
ghost use Rattle.pe_unwind_info.specs.Info.{info_of, parsed_info, trailer_view, trailer_of};
ghost use Rattle.pe_unwind_info.specs.Info.{chained_in};
ghost use Rattle.pe_unwind_info.specs.HandlerData.{names_handler, data_offset};
ghost use Rattle.pe_unwind_info.specs.HandlerData.{handler_data_offset_of};

use crate::x86_64::function_table::{RuntimeFunction, U32};
use crate::x86_64::little_endian::split_u32;
use crate::x86_64::operations::UnwindOperations;
use crate::x86_64::registers::{Register, register_at};
use bitflags::{Flag, Flags, bitflag_items};
use memory_image::Record;

/// The flags of an unwind record. At most one of them is set in a record of a proper image.
#[derive(Clone, Copy, Debug, PartialEq, Eq, Hash)]
pub struct UnwindInfoFlags(u8);

bitflag_items! {
    impl UnwindInfoFlags: u8 {
        const EHANDLER = 1;
        const UHANDLER = 2;
        const CHAININFO = 4;
    }
}

impl Flags for UnwindInfoFlags {
    ghost use Rattle.std.specs.Prelude.{⊤, [], ◌∷◌, codes};

    type Bits = u8;

    ghost exact = { ⊤ };

    ghost table = { (codes "EHANDLER", 1) ∷ (codes "UHANDLER", 2) ∷ (codes "CHAININFO", 4) ∷ [] };

    ghost set_of = { λ flags. flags.0 };

    fn flags<'a>() -> &'a [Flag<UnwindInfoFlags>] {
        UnwindInfoFlags::FLAGS
    }

    fn bits(&self) -> u8 {
        self.0
    }

    fn from_bits_retain(bits: u8) -> UnwindInfoFlags {
        UnwindInfoFlags(bits)
    }
}

/// The first four bytes of an unwind record.
#[derive(Clone, Copy, Debug)]
pub struct UnwindInfoHeader {
    /// The version in the low three bits, and the flags above it.
    pub version_and_flags: u8,
    /// How many bytes the prolog takes.
    pub prolog_size: u8,
    /// How many slots of two bytes follow the header.
    pub unwind_codes_len: u8,
    /// The frame register's number in the low four bits, 0 where there is none, and above it how
    /// far that register is above the stack pointer that it was set from, in units of 16 bytes.
    pub frame_register_and_offset: u8,
}

impl UnwindInfoHeader {
    /// The record's version.
    pub fn version(&self) -> u8
        ensures { result ≡ version_of self.now }
    {
        self.version_and_flags & 0x7
    }

    /// The flags as they stand, unknown ones among them.
    pub fn flags_raw(&self) -> u8
        ensures { result ≡ flags_of self.now }
    {
        self.version_and_flags >> 3
    }

    /// The flags that are known.
    pub fn flags(&self) -> UnwindInfoFlags
        ensures { flag_bits result ≡ flags_of self.now % 8 }
    {
        UnwindInfoFlags::from_bits_truncate(self.flags_raw())
    }

    /// The number of the frame register, 0 where there is none.
    pub fn frame_register_raw(&self) -> u8
        ensures { result ≡ frame_number self.now }
    {
        self.frame_register_and_offset & 0xf
    }

    /// How far the frame register is above the stack pointer that it was set from, in units of 16
    /// bytes.
    pub fn frame_register_offset_raw(&self) -> u8
        ensures { result ≡ frame_units self.now }
    {
        self.frame_register_and_offset >> 4
    }

    /// How far the frame register is above the stack pointer that it was set from, in bytes.
    pub fn frame_register_offset(&self) -> u8
        ensures { result ≡ frame_distance self.now }
    {
        self.frame_register_offset_raw() * 16
    }

    /// The frame register, where there is one.
    pub fn frame_register(&self) -> Option<Register>
        ensures { result ≡ frame_register_of self.now }
    {
        match self.frame_register_raw() {
            0 => None,
            number => Some(register_at(number)),
        }
    }
}

/// The record of a function that bytes begin with.
fn first_function(bytes: &[u8]) -> Option<RuntimeFunction>
    ensures { result ≡ chained_in bytes.now }
{
    if bytes.len() < RuntimeFunction::SIZE {
        None
    } else {
        Some(RuntimeFunction::read(bytes))
    }
}

/// What stands after the slots of an unwind record.
#[derive(Drop)]
pub enum UnwindInfoTrailer<'a> {
    /// The function has a handler for exceptions.
    ExceptionHandler {
        /// Where the handler stands, relative to the base of the image.
        handler_address: U32,
        /// The bytes after it, which are the handler's own.
        handler_data: &'a [u8],
    },
    /// The function has a handler for termination.
    TerminationHandler {
        /// Where the handler stands, relative to the base of the image.
        handler_address: U32,
        /// The bytes after it, which are the handler's own.
        handler_data: &'a [u8],
    },
    /// The unwind record of another function goes on where this one ends.
    ChainedUnwindInfo {
        /// The function whose record it is.
        chained: RuntimeFunction,
    },
}

/// A view of an unwind record.
#[derive(Clone, Copy, Debug)]
pub struct UnwindInfo<'a> {
    header: UnwindInfoHeader,
    slots: &'a [u8],
    after: &'a [u8],
}

impl<'a> UnwindInfo<'a> {
    /// The record that bytes begin with; `None` exactly where the header or the slots that it
    /// states don't fit, or the version isn't 1 or 2.
    pub fn parse(bytes: &'a [u8]) -> Option<UnwindInfo<'a>>
        ensures { option_map info_of result ≡ parsed_info bytes.now }
    {
        let [
            version_and_flags,
            prolog_size,
            unwind_codes_len,
            frame_register_and_offset,
            rest @ ..,
        ] = bytes
        else {
            return None;
        };
        let header = UnwindInfoHeader {
            version_and_flags: *version_and_flags,
            prolog_size: *prolog_size,
            unwind_codes_len: *unwind_codes_len,
            frame_register_and_offset: *frame_register_and_offset,
        };
        if header.version() != 1 && header.version() != 2 {
            return None;
        }
        let count = usize::from(header.unwind_codes_len);
        if rest.len() < 2 * count {
            return None;
        }
        // the trailer stands after an even number of slots
        let after = (2 * (count + count % 2)).min(rest.len());
        Some(UnwindInfo {
            header,
            slots: &rest[..2 * count],
            after: &rest[after..],
        })
    }

    /// The first four bytes.
    pub fn header(&self) -> UnwindInfoHeader
        ensures { result ≡ (info_of self.now).header }
    {
        self.header
    }

    /// What stands after an even number of slots, by the first flag that is set of those for
    /// exceptions, termination and chaining. `None` where none is set, and where the bytes of the
    /// slot that makes the number even, or its own, are missing.
    #[tactic(auto, using(crate::proofs::FlagLemmas::and_two, crate::proofs::FlagLemmas::and_four))]
    pub fn trailer(&self) -> Option<UnwindInfoTrailer<'a>>
        ensures { option_map trailer_view result ≡ trailer_of (info_of self.now) }
    {
        let flags = self.header.flags();
        if flags.contains(UnwindInfoFlags::EHANDLER) {
            let (handler_address, handler_data) = split_u32(self.after)?;
            Some(UnwindInfoTrailer::ExceptionHandler {
                handler_address,
                handler_data,
            })
        } else if flags.contains(UnwindInfoFlags::UHANDLER) {
            let (handler_address, handler_data) = split_u32(self.after)?;
            Some(UnwindInfoTrailer::TerminationHandler {
                handler_address,
                handler_data,
            })
        } else if flags.contains(UnwindInfoFlags::CHAININFO) {
            let chained = first_function(self.after)?;
            Some(UnwindInfoTrailer::ChainedUnwindInfo { chained })
        } else {
            None
        }
    }

    /// The function whose record goes on where this one ends. `None` where the trailer names none.
    pub fn chained_function(&self) -> Option<RuntimeFunction>
        ensures { result ≡ chained_of (info_of self.now) }
    {
        match self.trailer() {
            Some(UnwindInfoTrailer::ChainedUnwindInfo { chained }) => Some(chained),
            _ => None,
        }
    }

    /// Whether the flags say that the record names a handler, for exceptions or for termination.
    #[tactic(auto, using(crate::proofs::FlagLemmas::has_first))]
    pub fn names_handler(&self) -> bool
        ensures { result ≡ names_handler (info_of self.now) }
    {
        let flags = self.header.flags();
        flags.contains(UnwindInfoFlags::EHANDLER) || flags.contains(UnwindInfoFlags::UHANDLER)
    }

    /// How far a handler's data is from the record's start: after the header, an even number of
    /// slots, and the handler's address.
    pub(crate) fn data_offset(&self) -> u32
        ensures { result ≡ data_offset (info_of self.now).header }
    {
        let count = u32::from(self.header.unwind_codes_len);
        8 + 2 * (count + count % 2)
    }

    /// How far the handler's data is from the record's start, in bytes; `None` where the trailer is
    /// no handler's.
    pub fn handler_data_offset(&self) -> Option<u32>
        ensures { result ≡ handler_data_offset_of (info_of self.now) }
    {
        match self.trailer() {
            Some(UnwindInfoTrailer::ExceptionHandler { .. }) => Some(self.data_offset()),
            Some(UnwindInfoTrailer::TerminationHandler { .. }) => Some(self.data_offset()),
            _ => None,
        }
    }

    /// The operations of the record, from the last instruction of the prolog to the first.
    pub fn unwind_operations(&self) -> UnwindOperations<'a>
        ensures operations { operations_left result ≡ operations_in (info_of self.now) }
        ensures slots { slots_left result ≡ (info_of self.now).slots }
    {
        UnwindOperations::new(self.header.version(), self.slots)
    }

    /// The record's version, 1 or 2.
    pub fn version(&self) -> u8
        ensures { result ≡ version_of (info_of self.now).header }
    {
        self.header.version()
    }

    /// The flags as they stand, unknown ones among them.
    pub fn flags_raw(&self) -> u8
        ensures { result ≡ flags_of (info_of self.now).header }
    {
        self.header.flags_raw()
    }

    /// The flags that are known.
    pub fn flags(&self) -> UnwindInfoFlags
        ensures { flag_bits result ≡ flags_of (info_of self.now).header % 8 }
    {
        self.header.flags()
    }

    /// The number of the frame register, 0 where there is none.
    pub fn frame_register_raw(&self) -> u8
        ensures { result ≡ frame_number (info_of self.now).header }
    {
        self.header.frame_register_raw()
    }

    /// How far the frame register is above the stack pointer that it was set from, in units of 16
    /// bytes.
    pub fn frame_register_offset_raw(&self) -> u8
        ensures { result ≡ frame_units (info_of self.now).header }
    {
        self.header.frame_register_offset_raw()
    }

    /// How far the frame register is above the stack pointer that it was set from, in bytes.
    pub fn frame_register_offset(&self) -> u8
        ensures { result ≡ frame_distance (info_of self.now).header }
    {
        self.header.frame_register_offset()
    }

    /// The frame register, where there is one.
    pub fn frame_register(&self) -> Option<Register>
        ensures { result ≡ frame_register_of (info_of self.now).header }
    {
        self.header.frame_register()
    }
}
