//! What the program of a common information entry ended with that was run last. DWARF 5 section
//! 6.4.1.

ghost use Rattle.std.specs.Prelude.{◌≡◌, IfSome, None, true};
ghost use Rattle.unwind_definitions.specs.Instructions.{program};
ghost use Rattle.encoded_pointers.specs.CursorViews.{at};
ghost use Rattle.frame_rows.specs.InstructionViews.{coding_in};
ghost use Rattle.frame_rows.specs.Movable.{IsMovable};
ghost use Rattle.frame_rows.specs.Running.{IsEndOf};

use crate::coding::Coding;
use crate::known_programs::are_same;
use crate::machine::{Machine, RowState};
use crate::stretch::Instructions;
use encoded_pointers::Cursor;
use std::marker::Model;

/// What the program of a common information entry ended with, known by its bytes and by the factors
/// that its operands are read by.
///
/// The entries of most tables have the same program, which so runs once. It serves while rows are
/// made, and isn't part of them: contracts see nothing.
#[derive(Drop)]
pub(crate) struct KnownCommon<'a> {
    is_known: bool,
    bytes: &'a [u8],
    code_factor: u64,
    data_factor: u64,
    state: RowState<'a>,
}

impl<'a> Model for KnownCommon<'a> {
    ghost use Rattle.std.specs.Prelude.{◌≡◌, true};
    ghost use Rattle.frame_rows.specs.KnownCommons.{KnowsEnd};

    ghost Value = { Unit {0} };

    ghost view = { λ _. tt };

    ghost invariant = { λ k. k.is_known ≡ true →
        KnowsEnd k.bytes.now k.code_factor k.data_factor k.state };
}

impl<'a> KnownCommon<'a> {
    /// None is known.
    pub(crate) fn new() -> KnownCommon<'a> {
        KnownCommon {
            is_known: false,
            bytes: &[],
            code_factor: 0,
            data_factor: 0,
            state: RowState::new(),
        }
    }

    /// The row that an entry's program ends with, lent, where it is known.
    #[inline(always)]
    pub(crate) fn find(&self, common: Cursor<'a>, coding: Coding) -> Option<&RowState<'a>>
        ensures { IfSome result (λ state.
            IsEndOf state.now None (program (coding_in coding.entry) (at common.entry))) }
    {
        if self.is_known
            && self.code_factor == coding.code_factor
            && self.data_factor == coding.data_factor
            && are_same(self.bytes, common.bytes())
        {
            Some(&self.state)
        } else {
            None
        }
    }

    /// Notes the row that a machine has, which an entry's program ended with. One that sets the
    /// location says something else elsewhere, and isn't known.
    pub(crate) fn note(&mut self, common: Cursor<'a>, coding: Coding, machine: &Machine<'a>)
        requires { IsEndOf machine.now.state None (program (coding_in coding) (at common)) }
    {
        self.is_known = sets_no_location(common, coding);
        self.bytes = common.bytes();
        self.code_factor = coding.code_factor;
        self.data_factor = coding.data_factor;
        machine.put_state(&mut self.state);
    }
}

// Whether a program can be read to its end, and sets no location.
fn sets_no_location(bytes: Cursor<'_>, coding: Coding) -> bool
    ensures { result ≡ true → IsMovable (program (coding_in coding.entry) (at bytes.entry)) }
{
    let mut instructions = Instructions::new(bytes);
    loop {
        match instructions.next(coding) {
            Ok(Some(_)) => {}
            Ok(None) => return !instructions.sets_location(),
            Err(_) => return false,
        }
    }
}
