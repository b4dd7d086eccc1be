// The text of a stack.
ghost use Rattle.std.specs.Prelude.{◌≡◌, ◌≤◌, ◌==◌, ◌++◌, ◌∷◌, Bool, IfOk, IsTrue, OnOk, [], true, map};
ghost use Rattle.std.specs.Option.{option_map};
ghost use Rattle.sampled_profile.specs.Ends.{end_word, popped_word};
ghost use Rattle.sampled_profile.specs.Texts.{frame_text, place_text, root_text, word_text};
ghost use Rattle.sampled_profile.specs.Texts.{written, written_name};
ghost use Rattle.unwind_definitions.specs.LanguageSearch.{address_of_call};

use crate::stack_end::{StackEnd, popped_word};
use stack_report::Report;
use stack_snapshot::{Origin, Origins, file_name};
use std::alloc::AllocError;

/// A byte of a name as it is written.
fn written(byte: u8) -> u8
    ensures { result ≡ written byte }
{
    if byte <= b' ' || byte == b';' {
        b'_'
    } else {
        byte
    }
}

/// Whether a name is written as it is.
fn is_plain(name: &[u8]) -> bool
    ensures { IsTrue result → written_name name.now ≡ name.now }
{
    for byte in name {
        if written(*byte) != *byte {
            return false;
        }
    }
    true
}

/// Puts a name last, byte by byte, without what parts a line.
fn put_written(report: &mut Report, name: &[u8]) -> Result<(), AllocError>
    ensures { OnOk result (report.new ≡ report.old ++ written_name name.now) }
{
    for byte in name {
        report.put_bytes(&[written(*byte)])?;
    }
    Ok(())
}

/// Puts a name last, without what parts a line.
pub(crate) fn put_name(report: &mut Report, name: &[u8]) -> Result<(), AllocError>
    ensures { OnOk result (report.new ≡ report.old ++ written_name name.now) }
{
    if is_plain(name) {
        report.put_bytes(name)
    } else {
        put_written(report, name)
    }
}

/// Puts the name of a thread or of a process last.
pub(crate) fn put_root(report: &mut Report, name: Option<&[u8]>) -> Result<(), AllocError>
    ensures { OnOk result (report.new ≡ report.old ++ root_text (option_map (λ n. n.now) name.entry)) }
{
    match name {
        Some(name) => put_name(report, name),
        None => report.put("[unknown]"),
    }
}

/// Puts an address last, by the file that it lies in, where there is one.
pub(crate) fn put_place(
    report: &mut Report,
    origin: Option<&Origin>,
    address: u64,
) -> Result<(), AllocError>
    ensures { OnOk result (report.new ≡ report.old ++
        place_text (option_map (λ o. o.now) origin.entry) address) }
{
    match origin {
        Some(origin) => {
            put_name(report, file_name(origin.path()))?;
            report.put_field("+", address.wrapping_sub(origin.bias()))
        }
        None => report.put_field("", address),
    }
}

/// An address of a frame's instruction: its own where the thread was interrupted there, else a byte
/// of the call before it.
pub(crate) fn address_inside(address: u64, interrupted: bool) -> u64
    ensures { result ≡ address_of_call address interrupted }
{
    if interrupted {
        address
    } else {
        address.wrapping_sub(1)
    }
}

/// Puts a frame last, with a semicolon before it.
#[tactic(auto, unfolding(crate::specs::Texts::frame_text))]
pub(crate) fn put_frame(
    report: &mut Report,
    origins: &Origins,
    place: u64,
) -> Result<(), AllocError>
    ensures { OnOk result (report.new ≡ report.old ++ frame_text origins.now place) }
{
    report.put(";")?;
    put_place(report, origins.at(place), place)
}

/// Puts a word last, with a semicolon before it, where there is one.
fn put_word(report: &mut Report, word: Option<&'static str>) -> Result<(), AllocError>
    ensures { OnOk result (report.new ≡ report.old ++
        word_text (option_map (λ w. w.now) word.entry)) }
{
    match word {
        Some(word) => {
            report.put(";")?;
            report.put(word)
        }
        None => Ok(()),
    }
}

/// Puts last why a stack goes no further.
pub(crate) fn put_end(report: &mut Report, end: StackEnd) -> Result<(), AllocError>
    ensures { OnOk result (report.new ≡ report.old ++ word_text (end_word end)) }
{
    put_word(report, end.word())
}

/// Puts last whether registers of a stack were kept that were popped.
pub(crate) fn put_popped(report: &mut Report, popped: bool) -> Result<(), AllocError>
    ensures { OnOk result (report.new ≡ report.old ++ word_text (popped_word popped)) }
{
    put_word(report, popped_word(popped))
}
