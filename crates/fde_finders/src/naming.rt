//! The frame table that a module names.

ghost use Rattle.std.specs.Prelude.{◌≡◌};
ghost use Rattle.std.specs.Option.{option_map};
ghost use Rattle.fde_finders.specs.FrameTables.{table_by};
ghost use Rattle.fde_finders.specs.NamedTables.{named_of};

use crate::custom::{FrameInfo, FrameInfoKind};
use crate::tables::{frames_at, relative_to, table_by_header};
use eh_frame::{Bases, EhFrame, HdrTable};
use memory_image::MemoryImage;

/// The frame table that a module names, itself or by a header.
#[derive(Clone, Copy)]
pub struct NamedTable<'a> {
    /// The frame table.
    pub frames: EhFrame<'a>,
    /// What its pointers may be relative to.
    pub bases: Bases,
    /// The table of the header that leads to it, where one does and has one.
    pub pairs: Option<HdrTable<'a>>,
}

/// The frame table that a module names. `None` where it names a header that can't be read, or whose
/// frame table's address isn't mapped.
pub fn named_table<'a>(image: &MemoryImage<'a>, info: FrameInfo) -> Option<NamedTable<'a>>
    ensures { option_map named_of result ≡ table_by info image.now }
{
    let known = relative_to(info.text_base, None);
    match info.kind {
        FrameInfoKind::EhFrame(table) => Some(NamedTable {
            frames: frames_at(image, table),
            bases: Bases {
                frame: Some(table),
                ..known
            },
            pairs: None,
        }),
        FrameInfoKind::EhFrameHdr(header) => table_by_header(image, &known, header),
    }
}
