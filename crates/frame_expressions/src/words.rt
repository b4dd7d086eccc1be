//! What operations make of words. DWARF 5 section 2.5.1.4.

ghost use Rattle.std.specs.Prelude.{◌≡◌, ◌≢◌};
ghost use Rattle.frame_expressions.specs.OperationViews.{changed_by, combined_by, divided_by};
ghost use Rattle.unwind_definitions.specs.Operations.{shifted_left, shifted_right, shifted_signed};
ghost use Rattle.unwind_definitions.specs.Operations.{is_less, is_at_least, quotient};

use crate::operation::{Change, Combination, Division};

/// What is put in the place of a word.
pub(crate) fn changed_word(change: Change, word: u64) -> u64
    ensures { result ≡ changed_by change word }
{
    match change {
        Change::Magnitude => word.cast_signed().unsigned_abs(),
        Change::Negate => word.wrapping_neg(),
        Change::Not => !word,
        Change::Add(number) => word.wrapping_add(number),
    }
}

/// What is put in the place of two words.
pub(crate) fn combined_word(combination: Combination, second: u64, top: u64) -> u64
    ensures { result ≡ combined_by combination second top }
{
    match combination {
        Combination::And => second & top,
        Combination::Or => second | top,
        Combination::Xor => second ^ top,
        Combination::Add => second.wrapping_add(top),
        Combination::Subtract => second.wrapping_sub(top),
        Combination::Multiply => second.wrapping_mul(top),
        Combination::ShiftLeft => shifted_left(second, top),
        Combination::ShiftRight => shifted_right(second, top),
        Combination::ShiftSigned => shifted_signed(second, top),
        Combination::IsEqual => (second == top) as u64,
        Combination::IsUnequal => (second != top) as u64,
        Combination::IsLess => is_less(second, top),
        Combination::IsAtMost => is_at_least(top, second),
        Combination::IsGreater => is_less(top, second),
        Combination::IsAtLeast => is_at_least(second, top),
    }
}

/// A quotient or a remainder.
pub(crate) fn divided_word(division: Division, second: u64, top: u64) -> u64
    requires { top ≢ 0 }
    ensures { result ≡ divided_by division second top }
{
    match division {
        Division::Quotient => quotient(second, top),
        Division::Remainder => second % top,
    }
}

fn shifted_left(word: u64, places: u64) -> u64
    ensures { result ≡ shifted_left word places }
{
    if places < 64 { word << places } else { 0 }
}

fn shifted_right(word: u64, places: u64) -> u64
    ensures { result ≡ shifted_right word places }
{
    if places < 64 { word >> places } else { 0 }
}

fn shifted_signed(word: u64, places: u64) -> u64
    ensures { result ≡ shifted_signed word places }
{
    (word.cast_signed() >> places.min(63)).cast_unsigned()
}

fn is_less(second: u64, top: u64) -> u64
    ensures { result ≡ is_less second top }
{
    (second.cast_signed() < top.cast_signed()) as u64
}

fn is_at_least(second: u64, top: u64) -> u64
    ensures { result ≡ is_at_least second top }
{
    (second.cast_signed() >= top.cast_signed()) as u64
}

fn quotient(second: u64, top: u64) -> u64
    requires { top ≢ 0 }
    ensures { result ≡ quotient second top }
{
    second
        .cast_signed()
        .wrapping_div(top.cast_signed())
        .cast_unsigned()
}
