//! The entries of a frame table, as compilers emit them. LSB, section on `.eh_frame`.

ghost use Rattle.std.specs.Prelude.{◌≡◌, MatchOption};
ghost use Rattle.std.specs.Bool.{Decides};
ghost use Rattle.encoded_pointers.specs.PointerViews.{bases_of};
ghost use Rattle.eh_frame.specs.EntryViews.{table_of};
ghost use Rattle.table_check.specs.Scanned.{AllStand, IsFirstRefused, IsShortAt};

use eh_frame::{Bases, Cursor, EhFrame};

/// The offset of the first entry that can't be read, or whose length isn't spelled by four bytes.
/// `bytes` are those of the table.
pub(crate) fn first_refused_entry(frames: &EhFrame<'_>, bytes: &[u8], bases: &Bases) -> Option<u64>
    requires { bytes.now ≡ (table_of frames.now).bytes }
    ensures { MatchOption result (AllStand (bases_of bases.now) (table_of frames.now))
        (λ offset. IsFirstRefused (bases_of bases.now) (table_of frames.now) offset) }
{
    let address = frames.address();
    let mut entries = frames.entries(bases);
    loop {
        let offset = entries.offset();
        match entries.next() {
            Err(_) => return Some(offset),
            Ok(None) => return None,
            Ok(Some(_)) => {
                if !is_short(address, bytes, offset) {
                    return Some(offset);
                }
            }
        }
    }
}

/// Whether four bytes spell the length at an offset of a table.
pub(crate) fn is_short(address: u64, bytes: &[u8], offset: u64) -> bool
    ensures { Decides result
        (IsShortAt (record { base = address; offset = 0; bytes = bytes.now }) offset) }
{
    match Cursor::from_offset(bytes, address, offset).read_u32() {
        Ok(length) => length < u32::MAX,
        Err(_) => false,
    }
}
