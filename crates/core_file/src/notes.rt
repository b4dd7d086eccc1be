// The notes of a segment of notes. System V gABI, chapter "Program Loading and Dynamic Linking", part "Note Section".
ghost use Rattle.std.specs.Prelude.{◌≡◌, ◌<◌, ◌^◌};
ghost use Rattle.std.specs.Option.{option_map};
ghost use Rattle.core_file.specs.Notes.{first_note, split_filled, are_whole_notes};
ghost use Rattle.core_file.specs.Left.{note_of, bytes_left};

use memory_image::u32_at;

// how many bytes stand before a note's name: the sizes of name and description, and the type
const NOTE_HEADER_SIZE: usize = 12;

/// A note: who wrote it, what it tells, and as what type of note.
#[derive(Clone, Copy, Debug)]
pub(crate) struct NoteEntry<'a> {
    pub(crate) name: &'a [u8],
    pub(crate) description: &'a [u8],
    pub(crate) kind: u32,
}

/// So many bytes and what stands after their filling up to a multiple of four, which may be missing at the end. `None`
/// where the bytes aren't there.
fn split_filled(bytes: &[u8], size: u32) -> Option<(&[u8], &[u8])>
    ensures { option_map (λ p. (p.0.now, p.1.now)) result ≡ split_filled size bytes.now }
{
    let size = size as usize;
    if bytes.len() < size {
        return None;
    }
    let filled = (size + 3) / 4 * 4;
    Some((&bytes[..size], &bytes[filled.min(bytes.len())..]))
}

/// The note that bytes begin with, and what stands after it. `None` where it isn't whole.
#[tactic(auto, unfolding(crate::specs::Notes::first_note))]
fn first_note(bytes: &[u8]) -> Option<(NoteEntry<'_>, &[u8])>
    ensures { option_map (λ p. (note_of p.0, p.1.now)) result ≡ first_note bytes.now }
{
    if bytes.len() < NOTE_HEADER_SIZE {
        return None;
    }
    let (name, after_name) = split_filled(&bytes[NOTE_HEADER_SIZE..], u32_at(bytes, 0))?;
    let (description, rest) = split_filled(after_name, u32_at(bytes, 4))?;
    let kind = u32_at(bytes, 8);
    Some((
        NoteEntry {
            name,
            description,
            kind,
        },
        rest,
    ))
}

/// Whether bytes are whole notes, one after another.
#[tactic(auto, using(crate::proofs::NoteLemmas::whole_empty, crate::proofs::NoteLemmas::whole_end, crate::proofs::NoteLemmas::whole_next, crate::proofs::NoteLemmas::fewer_left))]
pub(crate) fn are_whole_notes(bytes: &[u8]) -> bool
    ensures { result ≡ are_whole_notes bytes.now }
{
    let mut rest = bytes;
    while !rest.is_empty() {
        match first_note(rest) {
            Some((_, after)) => rest = after,
            None => return false,
        }
    }
    true
}

/// The whole notes that bytes begin with.
#[derive(Clone, Copy, Debug)]
pub(crate) struct NoteEntries<'a> {
    bytes: &'a [u8],
}

impl<'a> NoteEntries<'a> {
    pub(crate) fn over(bytes: &'a [u8]) -> NoteEntries<'a>
        ensures { bytes_left result ≡ bytes.now }
    {
        NoteEntries { bytes }
    }
}

impl<'a> Iterator for NoteEntries<'a> {
    ghost use Rattle.std.specs.Iterator.{YieldsFirstBy, item_count};
    ghost use Rattle.core_file.specs.Left.{note_of, notes_left};

    type Item = NoteEntry<'a>;

    ghost next_gives = { YieldsFirstBy note_of notes_left };

    ghost remaining = { item_count notes_left };

    #[tactic(auto, using(crate::proofs::NoteLemmas::notes_end, crate::proofs::NoteLemmas::notes_give))]
    fn next(&mut self) -> Option<NoteEntry<'a>> {
        let bytes = self.bytes;
        self.bytes = &[];
        let (note, rest) = first_note(bytes)?;
        self.bytes = rest;
        Some(note)
    }
}
