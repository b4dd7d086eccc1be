//! How a description is searched in the tables of a module.

ghost use Rattle.std.specs.Prelude.{◌≡◌, ◌+◌, ℕ};
ghost use Rattle.std.specs.Option.{option_map};
ghost use Rattle.unwind_definitions.specs.HeaderSearch.{SearchTakes};
ghost use Rattle.unwind_definitions.specs.LanguageTable.{input_at};
ghost use Rattle.encoded_pointers.specs.PointerViews.{bases_of, pointer_of};
ghost use Rattle.eh_frame.specs.EntryViews.{fde_of, table_of};
ghost use Rattle.eh_frame.specs.HeaderViews.{pairs_of};
ghost use Rattle.fde_finders.specs.FoundViews.{found_fde_of};
ghost use Rattle.fde_finders.specs.Finding.{relative_to, scanned_by};
ghost use Rattle.fde_finders.specs.FrameTables.{table_by_header};
ghost use Rattle.fde_finders.specs.NamedTables.{named_of};
ghost use Rattle.fde_finders.specs.HeaderFinding.{by_table, found_by_header, led_address, fde_by_table};
ghost use Rattle.fde_finders.specs.HeaderFinding.{pairs_by_header, pairs_in};

use crate::find_fde::FDESearchResult;
use crate::naming::NamedTable;
use eh_frame::{Bases, EhFrame, EhFrameHdr, Fde, HdrTable, Pointer};
use memory_image::{Ledger, MemoryImage, Steps};

/// What pointers may be relative to where only the text and the data are known.
pub(crate) fn relative_to(text: Option<u64>, data_base: Option<u64>) -> Bases
    ensures { bases_of result ≡ relative_to text data_base }
{
    Bases {
        text,
        data_base,
        ..Bases::default()
    }
}

/// The first description of the frame table at an address that contains `pc`. Nothing is found
/// where an entry before it can't be read. `known` is what pointers may be relative to beside the
/// table.
pub(crate) fn scan<'a>(
    image: &MemoryImage<'a>,
    pc: u64,
    known: &Bases,
    table: u64,
) -> Option<FDESearchResult<'a>>
    ensures { option_map found_fde_of result ≡ scanned_by (bases_of known.now) image.now table pc }
{
    let bases = Bases {
        frame: Some(table),
        ..*known
    };
    let eh_frame = frames_at(image, table);
    let fde = eh_frame.fde_for_address(&bases, pc).ok()?;
    Some(FDESearchResult {
        fde,
        bases,
        eh_frame,
    })
}

/// The description that the header at an address leads to: that which its table finds for `pc`, and
/// where the table gives an error or there is none, that of a scan. Nothing is found where the
/// header can't be read, or the frame table's address isn't mapped.
///
/// Steps are counted in the search of the table, at most as many as its length has binary digits.
#[tactic(auto, unfolding(crate::specs::HeaderFinding::found_by_header, crate::specs::HeaderFinding::pairs_by_header))]
pub(crate) fn search_header<'a, L: Ledger>(
    image: &MemoryImage<'a>,
    pc: u64,
    known: &Bases,
    header: u64,
    steps: &mut Steps<L>,
) -> Option<FDESearchResult<'a>>
    ensures found { option_map found_fde_of result ≡ found_by_header (bases_of known.now) image.now
        header pc }
    ensures ticks { (taken : ℕ) × (steps.new.number ≡ steps.old.number + taken)
        × SearchTakes (pairs_by_header (bases_of known.now) image.now header) taken }
{
    let named = table_by_header(image, known, header)?;
    search_table(named.pairs, named.frames, named.bases, pc, steps)
}

/// The frame table that the header at an address leads to. `None` where the header can't be read,
/// or the frame table's address isn't mapped.
pub(crate) fn table_by_header<'a>(
    image: &MemoryImage<'a>,
    known: &Bases,
    header: u64,
) -> Option<NamedTable<'a>>
    ensures { option_map named_of result ≡ table_by_header (bases_of known.now) image.now header }
{
    let bases = Bases {
        hdr: Some(header),
        ..*known
    };
    let bytes = image.bytes_from(header);
    let parsed = EhFrameHdr::parse(bytes, header, &bases).ok()?;
    let table = target(image, parsed.eh_frame_ptr())?;
    Some(NamedTable {
        frames: frames_at(image, table),
        bases: Bases {
            frame: Some(table),
            ..bases
        },
        pairs: parsed.table(),
    })
}

// The description that a header's table finds, or that of a scan.
fn search_table<'a, L: Ledger>(
    table: Option<HdrTable<'a>>,
    eh_frame: EhFrame<'a>,
    bases: Bases,
    pc: u64,
    steps: &mut Steps<L>,
) -> Option<FDESearchResult<'a>>
    ensures found { option_map found_fde_of result ≡ by_table (bases_of bases)
        (table_of eh_frame.entry) pc (option_map pairs_of table.entry) }
    ensures ticks { (taken : ℕ) × (steps.new.number ≡ steps.old.number + taken)
        × SearchTakes (pairs_in (option_map pairs_of table.entry)) taken }
{
    let fde = match fde_by_header(table, &eh_frame, &bases, pc, steps) {
        Some(fde) => fde,
        None => eh_frame.fde_for_address(&bases, pc).ok()?,
    };
    Some(FDESearchResult {
        fde,
        bases,
        eh_frame,
    })
}

// The description that a header's table finds, where there is a table and it gives no error.
fn fde_by_header<'a, L: Ledger>(
    table: Option<HdrTable<'a>>,
    eh_frame: &EhFrame<'a>,
    bases: &Bases,
    pc: u64,
    steps: &mut Steps<L>,
) -> Option<Fde<'a>>
    ensures found { option_map fde_of result ≡ fde_by_table (bases_of bases.now)
        (table_of eh_frame.now) pc (option_map pairs_of table.entry) }
    ensures ticks { (taken : ℕ) × (steps.new.number ≡ steps.old.number + taken)
        × SearchTakes (pairs_in (option_map pairs_of table.entry)) taken }
{
    match table {
        None => None,
        Some(table) => table.fde_for_address(eh_frame, bases, pc, steps).ok(),
    }
}

// The frame table at an address, which ends with its region, and is empty where nothing is mapped.
pub(crate) fn frames_at<'a>(image: &MemoryImage<'a>, table: u64) -> EhFrame<'a>
    ensures { table_of result ≡ input_at image.now table }
{
    EhFrame::new(image.bytes_from(table), table)
}

// Where a header's pointer leads: to its address, or to that in the cell there, if it is mapped.
fn target(image: &MemoryImage<'_>, pointer: Pointer) -> Option<u64>
    ensures { result ≡ led_address image.now (pointer_of pointer) }
{
    match pointer {
        Pointer::Direct(address) => Some(address),
        Pointer::Indirect(cell) => image.read_u64(cell),
    }
}
