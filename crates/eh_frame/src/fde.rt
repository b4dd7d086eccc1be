//! Frame description entries: where a function's code lies, and how its frame is undone.

ghost use Rattle.std.specs.Prelude.{◌≡◌, ◌+◌, ◌<◌, ◌^◌, ℕ, Result, Some, is_some};
ghost use Rattle.std.specs.Option.{option_map};
ghost use Rattle.unwind_definitions.specs.Entries.{is_pointing};
ghost use Rattle.encoded_pointers.specs.Readers.{Answers};
ghost use Rattle.encoded_pointers.specs.CursorViews.{at};
ghost use Rattle.encoded_pointers.specs.PointerViews.{bases_of, pointer_of};
ghost use Rattle.eh_frame.specs.Letters.{letters_of};

use crate::cie::Cie;
use crate::entries::EhFrame;
use crate::indexed_fde::IndexedFde;
use encoded_pointers::{Bases, Cursor, Pointer};
use frame_rows::{Row, RowRoom, RowWalk};
use unwind_definitions::Error;

/// A frame description entry (FDE): the addresses of a function, and the program of its rows.
///
/// Source: LSB, section on `.eh_frame`; DWARF 5 section 6.4.1.
#[derive(Clone, Copy)]
pub struct Fde<'a> {
    offset: u64,
    cie: Cie<'a>,
    initial_address: u64,
    len: u64,
    lsda: Option<Pointer>,
    program: Cursor<'a>,
    ghost told: { is_some lsda ≡ is_pointing (letters_of cie.letters).language },
    ghost ends: { initial_address + len < 2 ^ 64 },
}

impl<'a> Fde<'a> {
    ghost use Rattle.std.specs.Prelude.{◌&&◌};
    ghost use Rattle.unwind_definitions.specs.Augmentation.{has_letter, language_letter};
    ghost use Rattle.unwind_definitions.specs.Augmentation.{personality_letter};
    ghost use Rattle.unwind_definitions.specs.Entries.{coding_of, fde_body};
    ghost use Rattle.unwind_definitions.specs.Row.{RowInstructions, covers_pc, row_at};
    ghost use Rattle.frame_rows.specs.Walks.{IsWalking, end_of};
    ghost use Rattle.eh_frame.specs.Walked.{due_row};
    ghost use Rattle.eh_frame.specs.EntryViews.{cie_of, fde_of};
    ghost use Rattle.frame_rows.specs.Rows.{GivesRow, row_in_place};
    ghost use Rattle.eh_frame.specs.FdeLists.{IsTold, fde_with};
    ghost use Rattle.eh_frame.specs.Standing.{covering_body};

    // What stands after the first four bytes of the entry at `offset`, which names `cie`.
    #[inline(always)]
    pub(crate) fn read(
        cie: &Cie<'a>,
        offset: u64,
        body: Cursor<'a>,
        bases: &Bases,
    ) -> Result<Fde<'a>, Error>
        ensures { Answers fde_of result
            (fde_body (bases_of bases.now) (cie_of cie.now) offset (at body.entry)) }
    {
        // it stands alone here, and is in no list
        let listed = IndexedFde::read(cie, 0, offset, body, bases)?;
        Ok(Fde::with_cie(*cie, &listed))
    }

    // The same where it contains an address. A description that doesn't is read without a copy of
    // its common information entry.
    #[inline(always)]
    pub(crate) fn read_covering(
        cie: &Cie<'a>,
        offset: u64,
        body: Cursor<'a>,
        bases: &Bases,
        pc: u64,
    ) -> Result<Option<Fde<'a>>, Error>
        ensures { Answers (option_map fde_of) result
            (covering_body (bases_of bases.now) (cie_of cie.now) offset (at body.entry) pc) }
    {
        let listed = IndexedFde::read(cie, 0, offset, body, bases)?;
        if listed.contains(pc) {
            return Ok(Some(Fde::with_cie(*cie, &listed)));
        }
        Ok(None)
    }

    /// How many bytes of the table stand before the entry.
    pub fn offset(&self) -> u64
        ensures { result ≡ (fde_of self.now).offset }
    {
        self.offset
    }

    /// The common information entry that the description names.
    pub fn cie(&self) -> Cie<'a>
        ensures { cie_of result ≡ (fde_of self.now).cie }
    {
        self.cie
    }

    // How many bytes of the table stand before the common information entry.
    pub(crate) fn cie_offset(&self) -> u64
        ensures { result ≡ (fde_of self.now).cie.offset }
    {
        self.cie.offset()
    }

    /// The address of the function's first byte.
    pub fn initial_address(&self) -> u64
        ensures { result ≡ (fde_of self.now).start }
    {
        self.initial_address
    }

    /// How many bytes the function has.
    pub fn len(&self) -> u64
        ensures { result ≡ (fde_of self.now).size }
    {
        self.len
    }

    // A description of a list, with its common information entry.
    #[inline(always)]
    pub(crate) fn with_cie(cie: Cie<'a>, listed: &IndexedFde<'a>) -> Fde<'a>
        requires { IsTold (cie_of cie) listed.now }
        ensures { fde_of result ≡ fde_with (cie_of cie.entry) listed.now }
    {
        Fde {
            offset: listed.offset,
            cie,
            initial_address: listed.initial_address,
            len: listed.len,
            lsda: listed.lsda,
            program: listed.program,
        }
    }

    /// Whether the function's frame is one that a signal's delivery made, which its common
    /// information entry says.
    pub fn is_signal_trampoline(&self) -> bool
        ensures { result ≡ (fde_of self.now).cie.letters.signal }
    {
        self.cie.is_signal_trampoline()
    }

    /// The pointer to the function's language table. `None` exactly where the augmentation has no
    /// `L`, or where its encoding says that there is none.
    pub fn lsda(&self) -> Option<Pointer>
        ensures pointer { option_map pointer_of result ≡ (fde_of self.now).language }
        ensures letter { is_some result ≡
            (has_letter language_letter (fde_of self.now).cie.augmentation
            && is_pointing (fde_of self.now).cie.letters.language) }
    {
        self.lsda
    }

    /// The personality of the common information entry. `None` exactly where the augmentation has
    /// no `P`.
    pub fn personality(&self) -> Option<Pointer>
        ensures pointer { option_map pointer_of result ≡ option_map
            (λ p. p.1) (fde_of self.now).cie.letters.personality }
        ensures letter { is_some result ≡ has_letter personality_letter
            (fde_of self.now).cie.augmentation }
    {
        self.cie.personality()
    }

    /// The instructions of the function's rows, after those of the common information entry, in
    /// bytes.
    pub fn program(&self) -> &'a [u8]
        ensures { result.now ≡ (fde_of self.now).program.bytes }
    {
        self.program.bytes()
    }

    // The same with their place in the table.
    pub(crate) fn instructions(&self) -> Cursor<'a>
        ensures { at result ≡ (fde_of self.now).program }
    {
        self.program
    }

    /// Whether the function has a byte at the address `pc`: it begins at `initial_address` and has
    /// `len` bytes.
    pub fn contains(&self, pc: u64) -> bool
        ensures { result ≡ covers_pc (fde_of self.now) pc }
    {
        self.initial_address <= pc && pc - self.initial_address < self.len
    }

    /// The row at an address of the function: how the frame's caller is found there.
    ///
    /// `frame` is the table that the description stands in, and `bases` says what its pointers are
    /// relative to. The program of the common information entry runs whole, and then the
    /// description's own, up to the first instruction that leads past `pc`.
    /// Source: DWARF 5 sections 6.4.1 to 6.4.3.
    ///
    /// # Errors
    ///
    /// `NoUnwindInfoForAddress` where the function doesn't contain `pc`, or else the first fault
    /// in the order of reading and running:
    ///
    /// - an instruction that isn't known or that can't be read;
    /// - `AddressOverflow` where the location passes 2^64 - 1, and `LocationGoesBack` where it is
    ///   set to a lower one;
    /// - `TooManyRegisterRules` where a 33rd register gets a rule;
    /// - `NoCfaRegister` where a register or an offset is put in a CFA that has none, or where the
    ///   row has no CFA;
    /// - `StackFull` and `PopWithEmptyStack` where a second state is remembered, or none is.
    #[tactic(auto, unfolding(unwind_definitions::specs::Row::row_at))]
    pub fn unwind_info_for_address(
        &self,
        frame: &EhFrame<'a>,
        bases: &Bases,
        pc: u64,
    ) -> Result<Row<'a>, Error>
        ensures { GivesRow result (row_at (bases_of bases.now) (fde_of self.now) pc) }
    {
        if !self.contains(pc) {
            return Err(Error::NoUnwindInfoForAddress);
        }
        frame_rows::row_at(
            self.cie.instructions(),
            self.instructions(),
            self.cie.coding(bases),
            self.initial_address,
            pc,
        )
    }

    /// Makes the same row in `rows`, in place of the one that was made there before.
    ///
    /// # Errors
    ///
    /// Those of [`Fde::unwind_info_for_address`].
    #[tactic(auto, unfolding(unwind_definitions::specs::Row::row_at))]
    pub fn make_row(
        &self,
        frame: &EhFrame<'a>,
        bases: &Bases,
        pc: u64,
        rows: &mut RowRoom<'a>,
    ) -> Result<(), Error>
        ensures { GivesRow (row_in_place result rows.new)
            (row_at (bases_of bases.now) (fde_of self.now) pc) }
    {
        if !self.contains(pc) {
            return Err(Error::NoUnwindInfoForAddress);
        }
        rows.make(
            self.cie.instructions(),
            self.instructions(),
            self.cie.coding(bases),
            self.initial_address,
            pc,
        )
    }

    /// Goes to the first row of the function, from which [`Fde::go_on`] goes to the others.
    /// `bases` is what the table's pointers may be relative to.
    pub fn begin_rows(&self, bases: &Bases, walk: &mut RowWalk<'a>)
        ensures { IsWalking walk.new (coding_of (bases_of bases.now) (fde_of self.now).cie)
            (fde_of self.now).start (due_row (bases_of bases.now) (fde_of self.now)) }
    {
        walk.begin(
            self.cie.instructions(),
            self.instructions(),
            self.cie.coding(bases),
            self.initial_address,
        );
    }

    /// Goes to the function's next row, if there is one.
    pub fn go_on(&self, bases: &Bases, walk: &mut RowWalk<'a>)
        ensures { let coding = coding_of (bases_of bases.now) (fde_of self.now).cie in
            (from end : ℕ) (due : ℕ → Result RowInstructions Error) →
            IsWalking walk.old coding from due → end_of walk.old ≡ Some end →
            IsWalking walk.new coding end due }
    {
        walk.go_on(self.cie.coding(bases));
    }
}
