// Windows of a core's memory.
ghost use Rattle.std.specs.Prelude.{◌≡◌, ℕ, List, IfOk, IsErrOf, map};
ghost use Rattle.core_file.specs.Fronts.{segment_by};
ghost use Rattle.mapped_files.specs.Files.{AreTold};
ghost use Rattle.core_parts.specs.Views.{window_span};

use core_file::SegmentPlace;
use mapped_files::{Files, PartError};
use std::alloc::Global;

/// A part of a core's memory.
#[derive(Drop)]
pub struct Window {
    /// The address of its first byte.
    pub address: u64,
    /// Its bytes.
    pub bytes: Vec<u8>,
}

/// Reads a part of the memory that lies there in the file of a path.
fn read_window<F: Files>(
    alloc: Global,
    files: &F,
    path: &[u8],
    part: SegmentPlace,
) -> Result<Window, PartError>
    ensures told { (all : List ℕ → List ℕ) → AreTold (F.content files.now) all →
        IfOk result (λ window. window_span window ≡ segment_by (all path.now) part) }
    ensures fault { IsErrOf result PartError.Fault → F.may_fail files.now }
{
    let bytes = files.read_part(alloc, path, part.offset, part.size)?;
    Ok(Window {
        address: part.address,
        bytes,
    })
}

/// Reads parts of the memory of the core whose file this path names, in their order.
///
/// # Errors
///
/// [`PartError::Fault`] where a read failed, and [`PartError::Memory`] where memory ran out.
pub fn read_windows<F: Files>(
    alloc: Global,
    files: &F,
    path: &[u8],
    parts: &[SegmentPlace],
) -> Result<Vec<Window>, PartError>
    ensures told { (all : List ℕ → List ℕ) → AreTold (F.content files.now) all →
        IfOk result (λ windows.
        map window_span windows.items ≡ map (segment_by (all path.now)) parts.now) }
    ensures fault { IsErrOf result PartError.Fault → F.may_fail files.now }
{
    let mut windows = Vec::new(alloc);
    for part in parts {
        windows.push(read_window(alloc, files, path, *part)?)?;
    }
    Ok(windows)
}
