// For how many frames of a stack a program searches before modules are prepared. No answer hangs on it.
ghost use Rattle.std.specs.Prelude.{◌≤◌, IfSome};
ghost use Rattle.stack_steps.specs.Preparing.{ChangesIndexes};

use memory_image::{MemoryImage, NoLedger, Steps};
use stack_deliver::{FrameInfoKind, MadeRows, Module, ModuleTables, Room, Space, walk_to_end_made};
use stack_snapshot::Snapshot;
use std::alloc::{AllocError, Global};
use std::collections::HashSet;
use unwind_arch::x86_64::RSP;

// Where frames are searched for in frame tables themselves, these are at most so many, of a stack that is
// shorter than this: a real frame takes some 64 bytes, and an index costs as much as 26 scans of its table.
const SHORT_STACK: usize = 8192;

const FEW_FRAMES: usize = 128;

// What a frame takes of the stack at least: its return address.
const LEAST_FRAME: usize = 8;

// A description takes some 32 bytes of its table and a real frame some 64 of the stack: with so many bytes of
// stack for one of a table, its index costs less than a scan of it for each frame.
const STACK_BY_TABLE: usize = 4;

// A header has eight bytes for a description.
const TABLE_BY_HEADER: usize = 4;

// A search by a header costs a walk half of what the index costs of what so many bytes of the header list, and a
// delivery, which keeps no rows, as much.
const HEADER_BY_FRAME: usize = 48;

// Where frames are searched for by headers, these are so many at most, as a program may be long, and each search
// runs it anew. With fewer than the least, indexes cost little.
const MANY_FRAMES: usize = 4096;

const LEAST_FRAMES: usize = 16;

// So many of the innermost frames tell whether addresses recur. A delivery mostly has its handler among them.
const INNERMOST: usize = 128;

// For how many states at most is searched where addresses recur.
const MANY_RECURRING: usize = 65536;

/// For what frames are searched for.
#[derive(Clone, Copy)]
pub enum Search {
    /// A walk meets each frame once, and keeps rows.
    Walk,
    /// A delivery searches for a handler, goes to a frame's cleanup, and on from there, and keeps none.
    Delivery,
}

impl Search {
    /// How often a frame is searched for at most.
    fn times(self) -> usize {
        match self {
            Search::Walk => 1,
            Search::Delivery => 3,
        }
    }

    /// For how many frames at most is searched by headers, whatever their addresses.
    fn most(self) -> usize {
        match self {
            Search::Walk => MANY_FRAMES,
            Search::Delivery => INNERMOST,
        }
    }
}

/// How many bytes the frame table has that a module names, by what is mapped from there on or from
/// its header on. 0 where it names neither.
fn table_len(image: &MemoryImage<'_>, module: &Module) -> usize {
    let ModuleTables::Elf(tables) = module.tables else {
        return 0;
    };
    match tables.kind {
        FrameInfoKind::EhFrame(table) => image.bytes_from(table).len(),
        FrameInfoKind::EhFrameHdr(header) => {
            let len = image.bytes_from(header).len();
            len.saturating_mul(TABLE_BY_HEADER)
        }
    }
}

/// Whether the frame tables of modules have fewer bytes together than this.
fn are_shorter(image: &MemoryImage<'_>, modules: &[Module], bytes: usize) -> bool {
    let mut left = bytes;
    for module in modules {
        let len = table_len(image, module);
        if left <= len {
            return false;
        }
        left -= len;
    }
    true
}

/// How many bytes the header has that a module names, by what is mapped from it on. `None` where it names
/// no header.
fn header_len(image: &MemoryImage<'_>, module: &Module) -> Option<usize> {
    let ModuleTables::Elf(tables) = module.tables else {
        return None;
    };
    match tables.kind {
        FrameInfoKind::EhFrame(_) => None,
        FrameInfoKind::EhFrameHdr(header) => Some(image.bytes_from(header).len()),
    }
}

/// How many bytes are mapped of the headers of ELF modules. `None` where there are none, and where a module
/// names a frame table alone.
fn headers_len(image: &MemoryImage<'_>, modules: &[Module]) -> Option<usize> {
    let mut bytes: usize = 0;
    for module in modules {
        if let ModuleTables::Elf(_) = module.tables {
            bytes = bytes.saturating_add(header_len(image, module)?);
        }
    }
    if bytes == 0 { None } else { Some(bytes) }
}

/// For how many frames searches by headers of so many bytes cost no more than indexes, 0 where these cost little.
fn frames_by_headers(bytes: usize) -> usize {
    let frames = (bytes / HEADER_BY_FRAME).min(MANY_FRAMES);
    if frames < LEAST_FRAMES { 0 } else { frames }
}

/// The innermost states of a snapshot's stack, at most so many.
fn innermost_states(
    alloc: Global,
    space: &Space<'_>,
    snapshot: &Snapshot,
    interrupted: bool,
    most: usize,
) -> Result<Room, AllocError> {
    let most = most.min(MANY_RECURRING) as u32;
    let mut room = Room::new(alloc, most)?;
    let mut made = MadeRows::new(alloc)?;
    let mut steps = Steps::new(NoLedger);
    let own = space.over_own_image();
    let start = snapshot.start();
    walk_to_end_made(
        &mut made,
        &own,
        &start,
        interrupted,
        most,
        &mut room,
        &mut steps,
    );
    Ok(room)
}

/// Whether a room's first states, at most so many, have no more addresses than three quarters of their number.
fn recur(alloc: Global, room: &Room, most: usize) -> Result<bool, AllocError> {
    let states = room.visited_len().min(most);
    let mut addresses = HashSet::new(alloc);
    for i in 0..states {
        addresses.insert(room.visited(i).unwrap().ra)?;
    }
    Ok(addresses.len().saturating_mul(4) <= states.saturating_mul(3))
}

/// How many of a room's states lie in a module.
fn states_in(room: &Room, module: &Module) -> usize {
    let mut states: usize = 0;
    for i in 0..room.visited_len() {
        let address = room.visited(i).unwrap().ra;
        if module.start <= address && address < module.end {
            states = states.saturating_add(1);
        }
    }
    states
}

/// Prepares the module of an address where it holds so many of a room's states that to search for each
/// costs more than an index. It answers how many they are, and 0 where it isn't prepared.
fn prepare_holder(space: &mut Space<'_>, address: u64, room: &Room) -> Result<usize, AllocError>
    ensures { ChangesIndexes space.old space.new }
{
    let Some(module) = space.module_at(address) else {
        return Ok(0);
    };
    let Some(bytes) = header_len(space.image(), &module) else {
        return Ok(0);
    };
    let states = states_in(room, &module);
    if states < bytes / HEADER_BY_FRAME {
        return Ok(0);
    }
    let prepared = space.prepare_at(address)?;
    Ok(if prepared { states } else { 0 })
}

/// Prepares the modules of a room's innermost states that hold so many of its states. It answers how many
/// states are then in modules that aren't prepared.
fn prepare_holders(alloc: Global, space: &mut Space<'_>, room: &Room) -> Result<usize, AllocError>
    ensures { ChangesIndexes space.old space.new }
{
    let mut looked_at = HashSet::new(alloc);
    let mut left = room.visited_len();
    for i in 0..INNERMOST {
        let Some(state) = room.visited(i) else {
            break;
        };
        let start = space.module_at(state.ra).map_or(0, |module| module.start);
        if looked_at.insert(start)? {
            left = left.saturating_sub(prepare_holder(space, state.ra, room)?);
        }
    }
    Ok(left)
}

/// The states of a snapshot's stack for which a delivery searches by headers, once the modules of most are
/// prepared. `None` where they are too many.
fn delivered_states(
    alloc: Global,
    space: &Space<'_>,
    snapshot: &Snapshot,
    frames: usize,
) -> Result<Option<Room>, AllocError> {
    let room = innermost_states(alloc, space, snapshot, false, frames)?;
    if room.visited_len() < frames {
        return Ok(Some(room));
    }
    if !recur(alloc, &room, INNERMOST)? {
        return Ok(None);
    }
    let room = innermost_states(alloc, space, snapshot, false, MANY_RECURRING)?;
    Ok(if room.visited_len() < MANY_RECURRING {
        Some(room)
    } else {
        None
    })
}

/// How many frames of a snapshot's stack a delivery searches for by headers of so many bytes, once the
/// modules that hold most are prepared. 0 where they are too many.
fn frames_delivered(
    alloc: Global,
    space: &mut Space<'_>,
    snapshot: &Snapshot,
    bytes: usize,
) -> Result<usize, AllocError>
    ensures { ChangesIndexes space.old space.new }
{
    let frames = frames_by_headers(bytes);
    let Some(room) = delivered_states(alloc, space, snapshot, frames)? else {
        return Ok(0);
    };
    let left = prepare_holders(alloc, space, &room)?;
    Ok(if left < frames { room.visited_len() } else { 0 })
}

/// How many frames of a snapshot's stack are searched for by frame tables: a few, of a short stack. There are
/// none of a stack that is long beside the tables, where each is searched for so often, and no more than
/// the region of the stack pointer has room for: a stack has more that loops, or that goes on in another.
fn frames_by_tables(space: &Space<'_>, snapshot: &Snapshot, search: Search) -> usize {
    let image = space.image();
    let stack = image.bytes_from(snapshot.start().registers[RSP]).len();
    if stack >= SHORT_STACK {
        return 0;
    }
    let bytes = stack.saturating_mul(search.times()) / STACK_BY_TABLE;
    if are_shorter(image, snapshot.modules(), bytes) {
        return 0;
    }
    (stack / LEAST_FRAME + 1).min(FEW_FRAMES)
}

/// So many frames, no more than a snapshot's limit. `None` where there are none.
fn within_limit(snapshot: &Snapshot, frames: usize) -> Option<u32>
    ensures { IfSome result (λ few. few ≤ snapshot.now.limit) }
{
    if frames == 0 {
        return None;
    }
    let limit = snapshot.limit();
    Some(limit.min(frames.min(MANY_RECURRING) as u32))
}

/// How many frames of a snapshot's stack are searched for before modules are prepared, no more than its
/// limit. `None` where none are.
pub fn few_frames(space: &Space<'_>, snapshot: &Snapshot, search: Search) -> Option<u32>
    ensures { IfSome result (λ few. few ≤ snapshot.now.limit) }
{
    let frames = match headers_len(space.image(), snapshot.modules()) {
        Some(bytes) => frames_by_headers(bytes).min(search.most()),
        None => frames_by_tables(space, snapshot, search),
    };
    within_limit(snapshot, frames)
}

/// How many frames of a snapshot's stack a walk searches for by headers which has more than a few, no more
/// than the snapshot's limit. `None` where it searches for no more, as addresses don't recur.
pub fn more_walked(
    alloc: Global,
    space: &Space<'_>,
    snapshot: &Snapshot,
    interrupted: bool,
) -> Option<u32>
    ensures { IfSome result (λ more. more ≤ snapshot.now.limit) }
{
    headers_len(space.image(), snapshot.modules())?;
    let room = innermost_states(alloc, space, snapshot, interrupted, INNERMOST).ok()?;
    if !recur(alloc, &room, INNERMOST).ok()? {
        return None;
    }
    within_limit(snapshot, MANY_RECURRING)
}

/// How many frames of a snapshot's stack a delivery searches for by headers which meets more than a few,
/// no more than the snapshot's limit. `None` where it searches for no more. Modules that hold most of them
/// become prepared.
pub fn more_delivered(alloc: Global, space: &mut Space<'_>, snapshot: &Snapshot) -> Option<u32>
    ensures more { IfSome result (λ more. more ≤ snapshot.now.limit) }
    ensures same { ChangesIndexes space.old space.new }
{
    let bytes = headers_len(space.image(), snapshot.modules())?;
    let frames = frames_delivered(alloc, space, snapshot, bytes).ok()?;
    within_limit(snapshot, frames)
}
