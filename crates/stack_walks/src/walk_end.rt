// How far a walk comes, and why it ends there.
ghost use Rattle.std.specs.Prelude.{◌≡◌, ◌≢◌, ◌≤◌, ◌↔◌, ◌∷◌, ℕ, suc, List, [], Ok, Err, false, None};
ghost use Rattle.std.specs.Prelude.{Bool, length, take, IsTrue, IsFalse};
ghost use Rattle.unwind_definitions.specs.declared.error.Error.{Error as Fault};
ghost use Rattle.unwind_definitions.specs.Scan.{scan};
ghost use Rattle.unwind_definitions.specs.State.{State};
ghost use Rattle.unwind_definitions.specs.Function.{Function};
ghost use Rattle.unwind_definitions.specs.Chain.{Call, last_state};
ghost use Rattle.unwind_arch.specs.declared.x86_64.Context.{Context};
ghost use Rattle.eh_frame.specs.Listing.{listing_of};
ghost use Rattle.fde_finders.specs.Finding.{table_bases};
ghost use Rattle.stack_walks.specs.Lines.{line_of};
ghost use Rattle.stack_walks.specs.WalkEndSample.{after_call, bad_row, cut_entry, held_by};
ghost use Rattle.stack_walks.specs.WalkEndSample.{no_entry, nowhere};
ghost use Rattle.stack_walks.specs.ContextsMet.{contexts_met};
ghost use Rattle.stack_walks.specs.WalkEnds.{ComesTo, EndsFor, contexts_to_end, input_of, IsUndescribed};
ghost use Rattle.stack_walks.specs.WalkEnds.{UnwindsAsWalk};
ghost use Rattle.stack_walks.specs.WalkEnds.{IsUndescribedIn, stopped_by, IsUnknownIn, end_reason_of_chain};
ghost use Rattle.stack_walks.specs.KnownWalks.{StartsKnownStack, ShowStack, end_reason_of_stack};
ghost use Rattle.stack_walks.specs.Walking.{ShowChain, StartsChain};
ghost use Rattle.stack_steps.specs.Modules.{SpaceValue};
ghost use Rattle.stack_steps.specs.Elf.{FindsNone};
ghost use Rattle.stack_steps.specs.Growing.{IsSeenOver};
ghost use Rattle.stack_steps.specs.MadeRows.{AreMade};
ghost use Rattle.stack_steps.specs.Stepping.{step_of, FindsNoneIn};
ghost use Rattle.stack_steps.specs.Stopped.{StartsStopped};
ghost use Rattle.stack_steps.specs.Ticking.{RisesWithin};

use crate::room::Room;
use crate::unwind::{
    Stop, unwind_frames_alone, unwind_frames_by_made, unwind_frames_cached, unwind_frames_over,
};
use eh_frame::{Bases, EhFrame, Entries, Error, RowRoom};
use fde_finders::{FrameInfo, FrameInfoKind};
use memory_image::{Ledger, MemoryImage, Steps};
use stack_steps::{
    DeliverError, FrameCache, GrownSpace, MadeRows, Module, ModuleTables, Space, Stepped, Stepper,
};
use unwind_arch::x86_64::{Context, RSP};

/// Why a walk goes no further than its last state.
///
/// Each address is the one asked at that state: that of its instruction where it was interrupted,
/// else the byte before its return address.
#[derive(Clone, Copy, Debug, PartialEq, Eq)]
pub enum EndReason {
    /// Its return address is 0: it is the outermost.
    Outermost,
    /// No module holds the address.
    NoModule(u64),
    /// No description is found for the address: every entry of the frame table that its module
    /// names can be read, and none contains it; or by the header that its module names nothing is
    /// found; or the section of compact unwinding of its module lists no function there.
    NoDescription(u64),
    /// An entry of the frame table can't be read, and none before it contains the address.
    UnreadableTable {
        /// The address.
        address: u64,
        /// How many bytes of the table stand before the entry.
        offset: u64,
        /// Why it can't be read.
        error: Error,
    },
    /// The step to its caller has a fault.
    Refused {
        /// The address.
        address: u64,
        /// The fault.
        error: DeliverError,
    },
    /// It has a caller, but there are as many states as the limit allows.
    Limit,
}

/// The entry for which the scan of a frame table for an address fails.
fn unreadable(entries: &mut Entries<'_>, turns: usize, address: u64, error: Error) -> EndReason
    requires starts { ((listing_of entries.old).offset ≡ 0) ×
        ((listing_of entries.old).is_over ≡ false) }
    requires enough { turns ≡ suc (length (listing_of entries.old).table.bytes) }
    requires fails { scan (listing_of entries.old).bases (listing_of entries.old).table address ≡
        Err error }
    requires unread { error ≢ Error.NoUnwindInfoForAddress }
    ensures { IsUndescribedIn (listing_of entries.old).bases (listing_of entries.old).table address
        result }
{
    for _ in 0..turns {
        let offset = entries.offset();
        if entries.next().is_err() {
            return EndReason::UnreadableTable {
                address,
                offset,
                error,
            };
        }
    }
    unreachable!()
}

/// Why the scan of a frame table finds no description for an address.
fn unlisted_end(bytes: &[u8], table: u64, text_base: Option<u64>, address: u64) -> EndReason
    requires { (e : Fault) × (scan (table_bases text_base table)
        (input_of table bytes.now) address ≡ Err e) }
    ensures { IsUndescribedIn (table_bases text_base table)
        (input_of table bytes.now) address result }
{
    let bases = Bases {
        text: text_base,
        frame: Some(table),
        ..Bases::default()
    };
    let frames = EhFrame::new(bytes, table);
    match frames.fde_for_address(&bases, address) {
        Ok(_) => unreachable!(),
        Err(Error::NoUnwindInfoForAddress) => EndReason::NoDescription(address),
        Err(error) => {
            let mut entries = frames.entries(&bases);
            unreadable(&mut entries, bytes.len() + 1, address, error)
        }
    }
}

/// Why no description is found for an address by the tables that its module names.
fn undescribed_end(image: &MemoryImage<'_>, address: u64, tables: FrameInfo) -> EndReason
    requires { FindsNone image.now tables.text_base tables.kind address }
    ensures { IsUndescribed image.now tables.text_base tables.kind address result }
{
    match tables.kind {
        FrameInfoKind::EhFrameHdr(_) => EndReason::NoDescription(address),
        FrameInfoKind::EhFrame(table) => {
            unlisted_end(image.bytes_from(table), table, tables.text_base, address)
        }
    }
}

/// Why nothing is known of an address by the tables of its module.
fn unknown_end(image: &MemoryImage<'_>, address: u64, holder: &Module) -> EndReason
    requires { FindsNoneIn image.now holder.now holder.now.tables address }
    ensures { IsUnknownIn image.now holder.now holder.now.tables address result }
{
    match holder.tables {
        ModuleTables::Elf(tables) => undescribed_end(image, address, tables),
        ModuleTables::Macho(_) => EndReason::NoDescription(address),
        // An address without a record is one of a leaf.
        ModuleTables::Pe(_) => unreachable!(),
    }
}

/// Why there is no frame at a state.
pub fn unframed_end(space: &GrownSpace<'_, '_, '_>, state: &Stepped) -> EndReason
    requires { step_of space.now state.now.context state.now.signal ≡ Ok None }
    ensures { EndsFor result space.now state.now.context state.now.signal }
{
    if state.context.ra == 0 {
        return EndReason::Outermost;
    }
    let address = state.address();
    match space.module_at(address) {
        None => EndReason::NoModule(address),
        Some(holder) => unknown_end(space.image(), address, &holder),
    }
}

/// Why a walk goes no further where it meets the limit or a fault.
fn stopped_end(address: u64, error: DeliverError) -> EndReason
    ensures { result ≡ stopped_by address error }
{
    match error {
        DeliverError::FrameLimit => EndReason::Limit,
        error => EndReason::Refused { address, error },
    }
}

/// Visits the states from the start outwards, in a room that is emptied first.
fn walk_to_end<'t, 'a, L: Ledger>(
    space: &GrownSpace<'_, 't, 'a>,
    start: &Context,
    interrupted: bool,
    limit: u32,
    room: &mut Room,
    steps: &mut Steps<L>,
) -> EndReason
where
    't: 'a,
    requires { limit ≤ room.old.limit }
    ensures states { room.new.visited ≡ contexts_to_end space.now limit start.now interrupted }
    ensures why { ComesTo result space.now limit start.now interrupted }
    ensures no_cleanup { room.new.trail ≡ [] }
    ensures places { room.new.limit ≡ room.old.limit }
    ensures searches { RisesWithin space.now (length room.new.visited) steps.old.number
        steps.new.number }
    ensures ticks { RisesWithin space.now limit steps.old.number steps.new.number }
{
    room.clear();
    let mut state = Stepped {
        context: *start,
        signal: interrupted,
    };
    match unwinding_from(space, &mut state, limit, room, steps) {
        Ok(_) => unframed_end(space, &state),
        Err(error) => stopped_end(state.address(), error),
    }
}

/// The same by the rows that a cache keeps.
fn walk_to_end_by<'t, 'a, L: Ledger>(
    cache: &mut FrameCache<'_, 't>,
    space: &GrownSpace<'_, 't, 'a>,
    start: &Context,
    interrupted: bool,
    limit: u32,
    room: &mut Room,
    steps: &mut Steps<L>,
) -> EndReason
where
    't: 'a,
    requires over { IsSeenOver cache.old space.now }
    requires within { limit ≤ room.old.limit }
    ensures states { room.new.visited ≡ contexts_to_end space.now limit start.now interrupted }
    ensures why { ComesTo result space.now limit start.now interrupted }
    ensures no_cleanup { room.new.trail ≡ [] }
    ensures places { room.new.limit ≡ room.old.limit }
    ensures searches { RisesWithin space.now (length room.new.visited) steps.old.number
        steps.new.number }
    ensures ticks { RisesWithin space.now limit steps.old.number steps.new.number }
    ensures same { cache.new ≡ cache.old }
{
    room.clear();
    let mut state = Stepped {
        context: *start,
        signal: interrupted,
    };
    match unwind_frames_cached(cache, space, &mut state, limit, room, steps) {
        Ok(_) => unframed_end(space, &state),
        Err(error) => stopped_end(state.address(), error),
    }
}

/// The same by the rows that were made before in modules that aren't prepared.
fn walk_to_end_by_made<'t, 'a, L: Ledger>(
    made: &mut MadeRows<'a>,
    space: &GrownSpace<'_, 't, 'a>,
    start: &Context,
    interrupted: bool,
    limit: u32,
    room: &mut Room,
    steps: &mut Steps<L>,
) -> EndReason
where
    't: 'a,
    requires made { AreMade space.now made.old }
    requires within { limit ≤ room.old.limit }
    ensures states { room.new.visited ≡ contexts_to_end space.now limit start.now interrupted }
    ensures why { ComesTo result space.now limit start.now interrupted }
    ensures no_cleanup { room.new.trail ≡ [] }
    ensures places { room.new.limit ≡ room.old.limit }
    ensures searches { RisesWithin space.now (length room.new.visited) steps.old.number
        steps.new.number }
    ensures ticks { RisesWithin space.now limit steps.old.number steps.new.number }
    ensures made { AreMade space.now made.new }
{
    room.clear();
    let mut state = Stepped {
        context: *start,
        signal: interrupted,
    };
    match unwind_frames_by_made(space, &mut state, limit, room, made, steps) {
        Ok(_) => unframed_end(space, &state),
        Err(error) => stopped_end(state.address(), error),
    }
}

/// Goes from a state outwards as a walk does.
fn unwinding_from<'t, 'a, L: Ledger>(
    space: &GrownSpace<'_, 't, 'a>,
    state: &mut Stepped,
    limit: u32,
    room: &mut Room,
    steps: &mut Steps<L>,
) -> Result<Option<Stop>, DeliverError>
where
    't: 'a,
    requires within { limit ≤ room.old.limit }
    requires empty { room.old.visited ≡ [] }
    ensures walks { UnwindsAsWalk space.now limit state.old state.new room.old room.new result }
    ensures ticks { RisesWithin space.now
        (contexts_met None space.now limit state.old.context state.old.signal)
        steps.old.number steps.new.number }
{
    if space.is_prepared() {
        return unwind_frames_alone(space, state, limit, room, steps);
    }
    unwind_frames_with_rows(space, state, limit, room, steps)
}

/// The same with a room for rows, which is made here: a function clears the places of its locals
/// whenever it is called.
#[inline(never)]
fn unwind_frames_with_rows<'t, 'a, L: Ledger>(
    space: &GrownSpace<'_, 't, 'a>,
    state: &mut Stepped,
    limit: u32,
    room: &mut Room,
    steps: &mut Steps<L>,
) -> Result<Option<Stop>, DeliverError>
where
    't: 'a,
    requires within { limit ≤ room.old.limit }
    requires empty { room.old.visited ≡ [] }
    ensures walks { UnwindsAsWalk space.now limit state.old state.new room.old room.new result }
    ensures ticks { RisesWithin space.now
        (contexts_met None space.now limit state.old.context state.old.signal)
        steps.old.number steps.new.number }
{
    let mut rows = RowRoom::new();
    let mut stepper = Stepper::over(space, state.context.registers[RSP]);
    let mut place = None;
    unwind_frames_over(
        None,
        &mut stepper,
        state,
        limit,
        room,
        &mut place,
        &mut rows,
        steps,
    )
}

/// Walks as [`walk_to_end_into`] does, over a space that is seen over an image which has grown: so one
/// space serves stack after stack, each added to an image of its own.
pub fn walk_to_end_over<'t, 'a, L: Ledger>(
    space: &GrownSpace<'_, 't, 'a>,
    start: &Context,
    interrupted: bool,
    limit: u32,
    room: &mut Room,
    steps: &mut Steps<L>,
) -> EndReason
where
    't: 'a,
    requires { limit ≤ room.old.limit }
    // The states are those from the start outwards, each the caller of the one before.
    ensures states { room.new.visited ≡ contexts_to_end space.now limit start.now interrupted }
    // They are all of a line that the limit has room for, and the first of any longer one.
    ensures whole { (states : List Context) →
        line_of space.now limit start.now interrupted ≡ Ok states →
        room.new.visited ≡ states }
    ensures front { (longer : ℕ) (states : List Context) → limit ≤ longer →
        line_of space.now longer start.now interrupted ≡ Ok states →
        room.new.visited ≡ take limit states }
    // Each reason is given exactly for its cause.
    ensures why { (reason : EndReason) → (result ≡ reason) ↔
        ComesTo reason space.now limit start.now interrupted }
    // A described chain, through modules of whatever format, that the limit has room for is walked
    // to its end. The reason is there that the last state returns to 0, or that no module holds the
    // byte before its return address, or that the module which does has no description of it.
    ensures chain { (functions : List Function) (s : State) (calls : List Call) →
        StartsChain space.now start.now limit functions s calls → IsFalse interrupted →
        ShowChain room.new.visited s calls ×
        (result ≡ end_reason_of_chain space.now.modules (last_state s calls)) }
    // So is a function that was stopped in its body, in the prologue where it is of an ELF or a PE
    // module, or in an epilog where it is of a PE module, and then the described chain that its
    // caller begins.
    ensures stopped { (functions : List Function) (s : State) (call : Call) (calls : List Call) →
        StartsStopped space.now start.now limit functions s call calls → IsTrue interrupted →
        ShowChain room.new.visited s (call ∷ calls) ×
        (result ≡ end_reason_of_chain space.now.modules (last_state call.caller calls)) }
    // A stack of each of whose frames it is known how its caller's state follows is walked to its end,
    // through signals' frames too, for the reason that its outermost state has.
    ensures known { (s : State) (callers : List State) →
        (is : StartsKnownStack space.now start.now limit interrupted s callers) →
        ShowStack space.now room.new.visited interrupted s callers is.stack ×
        (result ≡ end_reason_of_stack space.now interrupted s callers is.stack) }
    ensures no_cleanup { room.new.trail ≡ [] }
    ensures places { room.new.limit ≡ room.old.limit }
    // A description is searched once at most at each state.
    ensures searches { RisesWithin space.now (length room.new.visited) steps.old.number
        steps.new.number }
    // As many searches as the limit allows states; none is counted where each module names a frame
    // table and none is prepared.
    ensures ticks { RisesWithin space.now limit steps.old.number steps.new.number }
{
    // No two of its modules share an address, as a space's type says.
    let _ = space.image();
    walk_to_end(space, start, interrupted, limit, room, steps)
}

/// Walks as [`walk_to_end_over`] does, by the rows that a cache of the same space keeps. Most frames at
/// addresses whose rows it keeps, from whichever walk, need no search and count one step, as
/// [`FrameCache`] says.
pub fn walk_to_end_cached<'t, 'a, L: Ledger>(
    cache: &mut FrameCache<'_, 't>,
    space: &GrownSpace<'_, 't, 'a>,
    start: &Context,
    interrupted: bool,
    limit: u32,
    room: &mut Room,
    steps: &mut Steps<L>,
) -> EndReason
where
    't: 'a,
    requires over { IsSeenOver cache.old space.now }
    requires within { limit ≤ room.old.limit }
    // The states are those from the start outwards, each the caller of the one before.
    ensures states { room.new.visited ≡ contexts_to_end space.now limit start.now interrupted }
    // They are all of a line that the limit has room for, and the first of any longer one.
    ensures whole { (states : List Context) →
        line_of space.now limit start.now interrupted ≡ Ok states →
        room.new.visited ≡ states }
    ensures front { (longer : ℕ) (states : List Context) → limit ≤ longer →
        line_of space.now longer start.now interrupted ≡ Ok states →
        room.new.visited ≡ take limit states }
    // Each reason is given exactly for its cause.
    ensures why { (reason : EndReason) → (result ≡ reason) ↔
        ComesTo reason space.now limit start.now interrupted }
    // A described chain, through modules of whatever format, that the limit has room for is walked
    // to its end. The reason is there that the last state returns to 0, or that no module holds the
    // byte before its return address, or that the module which does has no description of it.
    ensures chain { (functions : List Function) (s : State) (calls : List Call) →
        StartsChain space.now start.now limit functions s calls → IsFalse interrupted →
        ShowChain room.new.visited s calls ×
        (result ≡ end_reason_of_chain space.now.modules (last_state s calls)) }
    // So is a function that was stopped in its body, in the prologue where it is of an ELF or a PE
    // module, or in an epilog where it is of a PE module, and then the described chain that its
    // caller begins.
    ensures stopped { (functions : List Function) (s : State) (call : Call) (calls : List Call) →
        StartsStopped space.now start.now limit functions s call calls → IsTrue interrupted →
        ShowChain room.new.visited s (call ∷ calls) ×
        (result ≡ end_reason_of_chain space.now.modules (last_state call.caller calls)) }
    // A stack of each of whose frames it is known how its caller's state follows is walked to its end,
    // through signals' frames too, for the reason that its outermost state has.
    ensures known { (s : State) (callers : List State) →
        (is : StartsKnownStack space.now start.now limit interrupted s callers) →
        ShowStack space.now room.new.visited interrupted s callers is.stack ×
        (result ≡ end_reason_of_stack space.now interrupted s callers is.stack) }
    ensures no_cleanup { room.new.trail ≡ [] }
    ensures places { room.new.limit ≡ room.old.limit }
    // A description is searched once at most at each state.
    ensures searches { RisesWithin space.now (length room.new.visited) steps.old.number
        steps.new.number }
    // As many searches as the limit allows states; none is counted where each module names a frame
    // table and none is prepared.
    ensures ticks { RisesWithin space.now limit steps.old.number steps.new.number }
    ensures same { cache.new ≡ cache.old }
{
    // No two of its modules share an address, as a space's type says.
    let _ = space.image();
    walk_to_end_by(cache, space, start, interrupted, limit, room, steps)
}

/// Walks as [`walk_to_end_over`] does, by the rows that were made before, over the same image, in modules
/// that aren't prepared. Frames at addresses whose rows are there need no search, and count none.
pub fn walk_to_end_made<'t, 'a, L: Ledger>(
    made: &mut MadeRows<'a>,
    space: &GrownSpace<'_, 't, 'a>,
    start: &Context,
    interrupted: bool,
    limit: u32,
    room: &mut Room,
    steps: &mut Steps<L>,
) -> EndReason
where
    't: 'a,
    requires made { AreMade space.now made.old }
    requires within { limit ≤ room.old.limit }
    // The states are those from the start outwards, each the caller of the one before.
    ensures states { room.new.visited ≡ contexts_to_end space.now limit start.now interrupted }
    // They are all of a line that the limit has room for, and the first of any longer one.
    ensures whole { (states : List Context) →
        line_of space.now limit start.now interrupted ≡ Ok states →
        room.new.visited ≡ states }
    ensures front { (longer : ℕ) (states : List Context) → limit ≤ longer →
        line_of space.now longer start.now interrupted ≡ Ok states →
        room.new.visited ≡ take limit states }
    // Each reason is given exactly for its cause.
    ensures why { (reason : EndReason) → (result ≡ reason) ↔
        ComesTo reason space.now limit start.now interrupted }
    // A described chain, through modules of whatever format, that the limit has room for is walked
    // to its end. The reason is there that the last state returns to 0, or that no module holds the
    // byte before its return address, or that the module which does has no description of it.
    ensures chain { (functions : List Function) (s : State) (calls : List Call) →
        StartsChain space.now start.now limit functions s calls → IsFalse interrupted →
        ShowChain room.new.visited s calls ×
        (result ≡ end_reason_of_chain space.now.modules (last_state s calls)) }
    // So is a function that was stopped in its body, in the prologue where it is of an ELF or a PE
    // module, or in an epilog where it is of a PE module, and then the described chain that its
    // caller begins.
    ensures stopped { (functions : List Function) (s : State) (call : Call) (calls : List Call) →
        StartsStopped space.now start.now limit functions s call calls → IsTrue interrupted →
        ShowChain room.new.visited s (call ∷ calls) ×
        (result ≡ end_reason_of_chain space.now.modules (last_state call.caller calls)) }
    // A stack of each of whose frames it is known how its caller's state follows is walked to its end,
    // through signals' frames too, for the reason that its outermost state has.
    ensures known { (s : State) (callers : List State) →
        (is : StartsKnownStack space.now start.now limit interrupted s callers) →
        ShowStack space.now room.new.visited interrupted s callers is.stack ×
        (result ≡ end_reason_of_stack space.now interrupted s callers is.stack) }
    ensures no_cleanup { room.new.trail ≡ [] }
    ensures places { room.new.limit ≡ room.old.limit }
    // A description is searched once at most at each state.
    ensures searches { RisesWithin space.now (length room.new.visited) steps.old.number
        steps.new.number }
    // As many searches as the limit allows states; none is counted where each module names a frame
    // table and none is prepared.
    ensures ticks { RisesWithin space.now limit steps.old.number steps.new.number }
    ensures made { AreMade space.now made.new }
{
    // No two of its modules share an address, as a space's type says.
    let _ = space.image();
    walk_to_end_by_made(made, space, start, interrupted, limit, room, steps)
}

/// Walks the stack whose innermost frame has the registers `start` into a room as far as it goes,
/// and answers why it goes no further.
///
/// The room is emptied first. Then it holds the states from the start outwards: each next one is
/// the caller of the one before, by `step`, up to the end of the stack, to the first state whose
/// step has a fault, or to the limit. `interrupted` says whether the start stands before its
/// instruction and not after a call; so does each state after a signal's frame. So where `walk_into`
/// answers, these are its states; where it is refused, they are those up to and with the state whose
/// step has the fault, or as many as the limit. No memory is taken, and nothing is refused.
pub fn walk_to_end_into<L: Ledger>(
    space: &Space<'_>,
    start: &Context,
    interrupted: bool,
    limit: u32,
    room: &mut Room,
    steps: &mut Steps<L>,
) -> EndReason
    requires { limit ≤ room.old.limit }
    // The states are those from the start outwards, each the caller of the one before.
    ensures states { room.new.visited ≡ contexts_to_end space.now limit start.now interrupted }
    // They are all of a line that the limit has room for, and the first of any longer one.
    ensures whole { (states : List Context) →
        line_of space.now limit start.now interrupted ≡ Ok states →
        room.new.visited ≡ states }
    ensures front { (longer : ℕ) (states : List Context) → limit ≤ longer →
        line_of space.now longer start.now interrupted ≡ Ok states →
        room.new.visited ≡ take limit states }
    // Each reason is given exactly for its cause.
    ensures why { (reason : EndReason) → (result ≡ reason) ↔
        ComesTo reason space.now limit start.now interrupted }
    // A described chain, through modules of whatever format, that the limit has room for is walked
    // to its end. The reason is there that the last state returns to 0, or that no module holds the
    // byte before its return address, or that the module which does has no description of it.
    ensures chain { (functions : List Function) (s : State) (calls : List Call) →
        StartsChain space.now start.now limit functions s calls → IsFalse interrupted →
        ShowChain room.new.visited s calls ×
        (result ≡ end_reason_of_chain space.now.modules (last_state s calls)) }
    // So is a function that was stopped in its body, in the prologue where it is of an ELF or a PE
    // module, or in an epilog where it is of a PE module, and then the described chain that its
    // caller begins.
    ensures stopped { (functions : List Function) (s : State) (call : Call) (calls : List Call) →
        StartsStopped space.now start.now limit functions s call calls → IsTrue interrupted →
        ShowChain room.new.visited s (call ∷ calls) ×
        (result ≡ end_reason_of_chain space.now.modules (last_state call.caller calls)) }
    // A stack of each of whose frames it is known how its caller's state follows, by facts that
    // tables say or as unwind data describe its function, is walked to its end, through signals'
    // frames too, for the reason that its outermost state has.
    ensures known { (s : State) (callers : List State) →
        (is : StartsKnownStack space.now start.now limit interrupted s callers) →
        ShowStack space.now room.new.visited interrupted s callers is.stack ×
        (result ≡ end_reason_of_stack space.now interrupted s callers is.stack) }
    ensures no_cleanup { room.new.trail ≡ [] }
    ensures places { room.new.limit ≡ room.old.limit }
    // A description is searched once at most at each state.
    ensures searches { RisesWithin space.now (length room.new.visited) steps.old.number
        steps.new.number }
    // As many searches as the limit allows states; none is counted where each module names a frame
    // table and none is prepared.
    ensures ticks { RisesWithin space.now limit steps.old.number steps.new.number }
{
    // No two of its modules share an address, as a space's type says.
    let _ = space.image();
    let own = space.over_own_image();
    walk_to_end_over(&own, start, interrupted, limit, room, steps)
}

/// Each reason can be given, so that its cause can be met: after a call that returns to 0, to an
/// address that no module holds, and into a module whose frame table is empty, is cut, or has a
/// description with an unknown instruction; and where no state is allowed. The function does
/// nothing.
pub fn each_reason_is_given()
    ensures outermost { ComesTo EndReason.Outermost nowhere 1 (after_call 0) false }
    ensures no_module { ComesTo (EndReason.NoModule 0x1004) nowhere 1 (after_call 0x1005) false }
    ensures no_description { ComesTo (EndReason.NoDescription 0x1004)
        (held_by no_entry) 1 (after_call 0x1005) false }
    ensures unreadable { ComesTo (EndReason.UnreadableTable 0x1004 0 Error.UnexpectedEof)
        (held_by cut_entry) 1 (after_call 0x1005) false }
    ensures refused { ComesTo (EndReason.Refused 0x1004 (DeliverError.Table Error.UnknownInstruction))
        (held_by bad_row) 1 (after_call 0x1005) false }
    ensures limit { ComesTo EndReason.Limit nowhere 0 (after_call 0x1005) false }
{}

/// Each walk goes no further for a reason, and for no second one. The function does nothing.
pub fn a_walk_ends_for_one_reason()
    ensures some { (space : SpaceValue) (limit : ℕ) (start : Context) (interrupted : Bool) →
        (why : EndReason) × ComesTo why space limit start interrupted }
    ensures one { (space : SpaceValue) (limit : ℕ) (start : Context) (interrupted : Bool)
        (x y : EndReason) → ComesTo x space limit start interrupted →
        ComesTo y space limit start interrupted → x ≡ y }
{}
