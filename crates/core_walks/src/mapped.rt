// The walks of threads over a part of the memory, where that part suffices.
ghost use Rattle.std.specs.Prelude.{◌≡◌, ◌↔◌, IfOk, IfSome, IsSome};
ghost use Rattle.core_file.specs.Left.{threads_left};
ghost use Rattle.core_walks.specs.Lines.{threads_text};
ghost use Rattle.core_walks.specs.MappedWalks.{AreMapped, is_unmapped};

use crate::walking::put_thread;
use core_file::Threads;
use stack_deliver::{DeliverError, Room, Space};
use stack_report::Report;
use std::alloc::{AllocError, Global};

/// Whether a walk was refused since something that it reads isn't mapped.
pub fn is_unmapped(error: DeliverError) -> bool
    ensures { result ≡ is_unmapped error }
{
    match error {
        DeliverError::Unmapped(_) => true,
        _ => false,
    }
}

/// The walks of threads over a space, as [`walks_of_threads`](crate::walks_of_threads) writes them,
/// where none of them met something that isn't mapped. `None` where one did.
///
/// Over a part of the memory that holds the frame tables of all modules, which are ELF files, these are
/// the walks over all of it.
///
/// # Errors
///
/// `AllocError` where memory ran out.
pub fn mapped_walks_of_threads(
    alloc: Global,
    space: &Space<'_>,
    threads: Threads<'_>,
    limit: u32,
) -> Result<Option<Report>, AllocError>
    ensures text { IfOk result (λ told. IfSome told (λ report.
        report ≡ threads_text space.now limit 0 (threads_left threads.entry))) }
    ensures mapped { IfOk result (λ told. IsSome told ↔
        AreMapped space.now limit (threads_left threads.entry)) }
{
    let mut report = Report::new(alloc);
    let mut room = Room::new(alloc, limit)?;
    let mut threads = threads;
    let mut index = 0usize;
    while let Some(thread) = threads.next() {
        if !put_thread(&mut report, index, space, &thread, limit, &mut room)? {
            return Ok(None);
        }
        // Each thread makes the report longer: it has fewer threads than bytes.
        let _ = report.bytes().len();
        index += 1;
    }
    Ok(Some(report))
}
