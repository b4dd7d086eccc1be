// The threads of a core file, note after note.
ghost use Rattle.std.specs.Prelude.{◌≡◌};
ghost use Rattle.std.specs.Iterator.{YieldsFirst};
ghost use Rattle.core_file.specs.CoreValue.{threads_in, threads_in_notes, notes_are_whole};
ghost use Rattle.core_file.specs.Left.{bytes_left, threads_left};

use crate::notes::{NoteEntries, are_whole_notes};
use crate::program_header::ProgramHeader;
use memory_image::Records;
use unwind_arch::x86_64::Context;

/// The registers of the threads of a core file, in the order of its notes.
#[derive(Drop)]
pub struct Threads<'a> {
    bytes: &'a [u8],
    headers: Records<'a, ProgramHeader>,
    notes: NoteEntries<'a>,
}

impl<'a> Threads<'a> {
    pub(crate) fn over(bytes: &'a [u8], headers: Records<'a, ProgramHeader>) -> Threads<'a>
        ensures { threads_left result ≡ threads_in bytes.now headers.entry }
    {
        let notes = NoteEntries::over(&[]);
        Threads {
            bytes,
            headers,
            notes,
        }
    }
}

/// The next thread of which these notes tell.
#[tactic(auto, using(crate::proofs::ThreadLemmas::threads_end, crate::proofs::ThreadLemmas::threads_skip, crate::proofs::ThreadLemmas::threads_give))]
fn next_thread(notes: &mut NoteEntries<'_>) -> Option<Context>
    ensures { YieldsFirst (λ n. threads_in_notes (bytes_left n)) notes.old result notes.new }
{
    while let Some(note) = notes.next() {
        if let Some(context) = note.thread() {
            return Some(context);
        }
    }
    None
}

impl<'a> Iterator for Threads<'a> {
    ghost use Rattle.std.specs.Iterator.{YieldsFirst, item_count};
    ghost use Rattle.core_file.specs.Left.{threads_left};

    type Item = Context;

    ghost next_gives = { YieldsFirst threads_left };

    ghost remaining = { item_count threads_left };

    fn next(&mut self) -> Option<Context> {
        if let Some(context) = next_thread(&mut self.notes) {
            return Some(context);
        }
        let count = self.headers.len();
        for i in 0..count {
            let mut notes = NoteEntries::over(self.headers.at(i).note_bytes(self.bytes));
            if let Some(context) = next_thread(&mut notes) {
                self.notes = notes;
                self.headers = self.headers.after(i + 1);
                return Some(context);
            }
        }
        self.headers = self.headers.after(count);
        None
    }
}

/// Whether each segment of notes is whole notes.
pub(crate) fn notes_are_whole(bytes: &[u8], headers: &Records<'_, ProgramHeader>) -> bool
    ensures { result ≡ notes_are_whole bytes.now headers.now }
{
    for i in 0..headers.len() {
        if !are_whole_notes(headers.at(i).note_bytes(bytes)) {
            return false;
        }
    }
    true
}
