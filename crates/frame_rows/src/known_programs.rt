//! Programs of descriptions that were run, and which rows they made. DWARF 5 section 6.4.3.

ghost use Rattle.std.specs.Prelude.{[], ◌≡◌, ◌+◌, ◌<◌, ◌≤◌, ◌↔◌, IfSome, length, slice_range, true};
ghost use Rattle.std.specs.Int.{from_le_bytes, to_le_bytes, w64};
ghost use Rattle.encoded_pointers.specs.CursorViews.{at};
ghost use Rattle.frame_rows.specs.InstructionViews.{coding_in};
ghost use Rattle.frame_rows.specs.KnownRows.{Finds, Notes, StayOrGo};

use crate::coding::Coding;
use crate::row_table::RowRange;
use encoded_pointers::Cursor;
use std::alloc::{AllocError, Global};
use std::marker::Model;

// How many programs of a common information entry's descriptions are known at a time, at first and
// at most.
const FIRST: usize = 16;

const MOST: usize = 16384;

// 2^64 by the golden ratio: each bit of a word has its part in the high bits of its product with this.
const SPREAD: u64 = 0x9e37_79b9_7f4a_7c15;

/// A program that was run to its end, and which rows of a table it made.
#[derive(Clone, Copy)]
pub(crate) struct KnownProgram<'a> {
    pub(crate) bytes: &'a [u8],
    pub(crate) code_factor: u64,
    pub(crate) data_factor: u64,
    /// How far after the function's start the last location stands that it led to.
    pub(crate) reach: u64,
    pub(crate) rows: RowRange,
    /// How many rules of registers its rows have.
    pub(crate) rule_count: u32,
}

/// Programs of the descriptions that name one common information entry, by a number that is made
/// of their bytes: the last one of each number.
///
/// Most functions of a table have one of few programs, whose rows need not be made anew.
#[derive(Drop)]
pub(crate) struct KnownPrograms<'a> {
    slots: Vec<Option<KnownProgram<'a>>>,
    // how many were noted in these
    noted: usize,
}

impl<'a> Model for KnownPrograms<'a> {
    ghost use Rattle.std.specs.Prelude.{List, Option};
    ghost use Rattle.frame_rows.specs.declared.known_programs.KnownProgram.{KnownProgram};

    ghost Value = { List (Option KnownProgram) };

    ghost view = { λ k. k.slots.items };
}

impl<'a> KnownPrograms<'a> {
    /// None is known.
    pub(crate) fn new(alloc: Global) -> KnownPrograms<'a>
        ensures { result ≡ [] }
    {
        KnownPrograms {
            slots: Vec::new(alloc),
            noted: 0,
        }
    }

    /// Forgets all.
    pub(crate) fn clear(&mut self)
        ensures { self.new ≡ [] }
    {
        self.slots.clear();
        self.noted = 0;
    }

    /// Notes a program. Where there were twice as many as there are numbers, there are more numbers
    /// from now on, and those before are forgotten.
    ///
    /// # Errors
    ///
    /// Where memory runs out.
    pub(crate) fn note(&mut self, known: KnownProgram<'a>) -> Result<(), AllocError>
        ensures { Notes self.old known.entry self.new }
    {
        self.make_room()?;
        let count = self.slots.len();
        if count > 0 {
            self.slots[number_of(known.bytes) % count] = Some(known);
            self.noted = self.noted.saturating_add(1);
        }
        Ok(())
    }

    // Makes room for eight times as many where twice as many were noted as there is room for.
    fn make_room(&mut self) -> Result<(), AllocError>
        ensures { StayOrGo self.old self.new }
    {
        let count = self.slots.len();
        if self.noted / 2 < count || count >= MOST {
            return Ok(());
        }
        self.clear();
        self.slots
            .resize(count.saturating_mul(8).clamp(FIRST, MOST), None)
    }

    /// The program of a description whose function has so many bytes, lent, where it is known and
    /// leads to no location after them.
    #[inline(always)]
    pub(crate) fn find(
        &self,
        own: Cursor<'a>,
        coding: Coding,
        size: u64,
    ) -> Option<&KnownProgram<'a>>
        ensures { IfSome result (λ known. Finds self.now (at own.entry).bytes
            (coding_in coding.entry) size known.now) }
    {
        let index = number_of(own.bytes()).checked_rem(self.slots.len())?;
        match &self.slots[index] {
            Some(known) if is_for(known, own, coding, size) => Some(known),
            _ => None,
        }
    }
}

// Whether a program's rows are those of a description with these bytes.
#[inline(always)]
fn is_for(known: &KnownProgram<'_>, own: Cursor<'_>, coding: Coding, size: u64) -> bool
    ensures { (result ≡ true) ↔ ((known.now.reach < size) ×
        (known.now.code_factor ≡ coding.entry.code_factor) ×
        (known.now.data_factor ≡ coding.entry.data_factor) ×
        (known.now.bytes.now ≡ (at own.entry).bytes)) }
{
    known.reach < size
        && known.code_factor == coding.code_factor
        && known.data_factor == coding.data_factor
        && are_same(known.bytes, own.bytes())
}

/// Whether two programs have the same bytes.
#[inline(always)]
pub(crate) fn are_same(a: &[u8], b: &[u8]) -> bool
    ensures { (result ≡ true) ↔ (a.now ≡ b.now) }
{
    let count = a.len();
    if count != b.len() {
        return false;
    }
    if count < 8 || count > 16 {
        return a == b;
    }
    // of so few bytes the first eight and the last eight are all
    word_at(a, 0) == word_at(b, 0) && word_at(a, count - 8) == word_at(b, count - 8)
}

// A number by which programs are told apart, mostly.
#[inline(always)]
fn number_of(bytes: &[u8]) -> usize {
    let (first, last) = ends_of(bytes);
    let mut sum = first ^ last.rotate_left(32);
    for i in 1..bytes.len() / 8 {
        sum = sum.wrapping_mul(SPREAD).rotate_left(32) ^ word_at(bytes, 8 * i);
    }
    ((sum ^ (sum >> 32)).wrapping_mul(SPREAD) >> 40) as usize
}

// The first bytes of a program and its last: eight, or four where there are fewer.
#[inline(always)]
fn ends_of(bytes: &[u8]) -> (u64, u64) {
    let count = bytes.len();
    if count >= 8 {
        (word_at(bytes, 0), word_at(bytes, count - 8))
    } else if count >= 4 {
        (half_at(bytes, 0), half_at(bytes, count - 4))
    } else {
        let few = bytes
            .iter()
            .fold(0u64, |sum, byte| (sum << 8) | u64::from(*byte));
        (few, 0)
    }
}

// The eight bytes at an index, as a word.
fn word_at(bytes: &[u8], index: usize) -> u64
    requires { index + 8 ≤ length bytes.now }
    ensures word { result ≡ from_le_bytes w64 (slice_range bytes.now index (index + 8)) }
    ensures bytes { to_le_bytes w64 result ≡ slice_range bytes.now index (index + 8) }
{
    let part = &bytes[index..index + 8];
    u64::from_le_bytes([
        part[0], part[1], part[2], part[3], part[4], part[5], part[6], part[7],
    ])
}

// The four bytes at an index.
fn half_at(bytes: &[u8], index: usize) -> u64
    requires { index + 4 ≤ length bytes.now }
{
    let part = &bytes[index..index + 4];
    u64::from(u32::from_le_bytes([part[0], part[1], part[2], part[3]]))
}
