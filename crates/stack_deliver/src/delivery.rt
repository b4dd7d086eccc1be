// The delivery of an exception: the states from the start outwards.
ghost use Rattle.std.specs.Prelude.{◌≡◌, ◌≢◌, ◌+◌, ◌*◌, ◌⊎◌, ◌↔◌, ◌≤◌, ℕ, List, [], None, Err};
ghost use Rattle.std.specs.Prelude.{length, IsOkAnd, OnErr};
ghost use Rattle.memory_image.specs.Image.{word_at};
ghost use Rattle.unwind_definitions.specs.State.{State};
ghost use Rattle.unwind_definitions.specs.Function.{Function};
ghost use Rattle.unwind_definitions.specs.Chain.{Call};
ghost use Rattle.stack_steps.specs.Languages.{languages_of};
ghost use Rattle.stack_deliver.specs.Causes.{IsRefused, IsRefusedThrough, EndsBy, EndsThrough};
ghost use Rattle.stack_deliver.specs.Searches.{HasOneHeader, met_in_delivery, met_through};
ghost use Rattle.stack_walks.specs.Lines.{GivesUnlessNoMemory};
ghost use Rattle.stack_deliver.specs.StackDelivery.{delivery_through, stack_delivery};
ghost use Rattle.stack_steps.specs.Ticking.{RisesWithin};
ghost use Rattle.stack_deliver.specs.Delivering.{StartsValidChain, ShowsDelivery, IsDelivered};
ghost use Rattle.stack_deliver.specs.Delivering.{delivery_in};
ghost use Rattle.frame_facts.specs.FactDeliveries.{AskedFrame};
ghost use Rattle.stack_deliver.specs.KnownThrows.{AskingFrame, StartsKnownThrow};
ghost use Rattle.stack_deliver.specs.KnownThrows.{ShowsKnownThrow};
ghost use Rattle.stack_deliver.specs.KnownDeliveries.{StartsKnownDelivery, ShowsKnownDelivery};

use crate::outcome::{Delivery, Ending, Outcome};
use crate::passes::passes;
use crate::resumes::Resumes;
use eh_frame::RowRoom;
use memory_image::{Ledger, NoLedger, Steps};
use stack_steps::{DeliverError, GrownSpace, Languages, Space, Stepped, Stepper};
use stack_walks::{Pass, Phase, Room, mark_of, unwind_frames_over};
use std::alloc::Global;
use unwind_arch::x86_64::{Context, RSP};

/// The search for a handler, and where a frame takes the exception the passes toward it.
///
/// What is lent to each pass is cleared once a delivery.
#[tactic(auto, unfolding(crate::specs::StackDelivery::delivery_through))]
fn delivery_in_room<'t, 'a, L: Ledger>(
    languages: &Languages<'_>,
    space: &GrownSpace<'_, 't, 'a>,
    start: Context,
    exception: u64,
    resumes: &Resumes,
    limit: u32,
    room: &mut Room,
    steps: &mut Steps<L>,
) -> Result<Ending, DeliverError>
where
    't: 'a,
    requires within { limit ≤ room.old.limit }
    requires empty { (room.old.visited ≡ []) × (room.old.trail ≡ []) }
    ensures exact { IsDelivered result room.new
        (delivery_through (languages_of languages.now) space.now start exception resumes.now
        limit) }
    ensures places { room.new.limit ≡ room.old.limit }
    ensures ticks { RisesWithin space.now
        (met_through (languages_of languages.now) space.now start exception resumes.now limit)
        steps.old.number steps.new.number }
{
    let mut place = None;
    let mut rows = RowRoom::new();
    let mut stepper = Stepper::over(space, start.registers[RSP]);
    let mut state = Stepped {
        context: start,
        signal: false,
    };
    let pass = Some(Pass {
        phase: Phase::Search,
        languages: *languages,
    });
    let searched = unwind_frames_over(
        pass,
        &mut stepper,
        &mut state,
        limit,
        room,
        &mut place,
        &mut rows,
        steps,
    )?;
    let Some(stop) = searched else {
        return Ok(without_landing(Outcome::EndOfStack));
    };
    if !stop.action().is_taken() {
        return Ok(without_landing(Outcome::FatalPhase1));
    }
    passes(
        languages,
        &mut stepper,
        &start,
        exception,
        mark_of(&state),
        resumes,
        limit,
        room,
        &mut place,
        &mut rows,
        steps,
    )
}

/// The same in a room that is emptied first, and after an error again.
fn fresh_throw<'t, 'a, L: Ledger>(
    languages: &Languages<'_>,
    space: &GrownSpace<'_, 't, 'a>,
    start: Context,
    exception: u64,
    resumes: &Resumes,
    limit: u32,
    room: &mut Room,
    steps: &mut Steps<L>,
) -> Result<Ending, DeliverError>
where
    't: 'a,
    requires { limit ≤ room.old.limit }
    ensures exact { IsDelivered result room.new
        (delivery_through (languages_of languages.now) space.now start exception resumes.now
        limit) }
    ensures emptied { OnErr result ((room.new.visited ≡ []) × (room.new.trail ≡ [])) }
    ensures places { room.new.limit ≡ room.old.limit }
    ensures whole { length start.registers ≡ 16 }
    ensures ticks { RisesWithin space.now
        (met_through (languages_of languages.now) space.now start exception resumes.now limit)
        steps.old.number steps.new.number }
{
    room.clear();
    let delivered = delivery_in_room(
        languages, space, start, exception, resumes, limit, room, steps,
    );
    match delivered {
        Ok(ending) => Ok(ending),
        Err(error) => {
            room.clear();
            Err(error)
        }
    }
}

/// The same by the rule of Rust alone.
fn fresh_delivery<'t, 'a, L: Ledger>(
    space: &GrownSpace<'_, 't, 'a>,
    start: Context,
    exception: u64,
    resumes: &Resumes,
    limit: u32,
    room: &mut Room,
    steps: &mut Steps<L>,
) -> Result<Ending, DeliverError>
where
    't: 'a,
    requires { limit ≤ room.old.limit }
    ensures exact { IsDelivered result room.new
        (stack_delivery space.now start exception resumes.now limit) }
    ensures emptied { OnErr result ((room.new.visited ≡ []) × (room.new.trail ≡ [])) }
    ensures places { room.new.limit ≡ room.old.limit }
    ensures whole { length start.registers ≡ 16 }
    ensures ticks { RisesWithin space.now
        (met_in_delivery space.now start exception resumes.now limit)
        steps.old.number steps.new.number }
{
    let languages = Languages::rust_alone();
    fresh_throw(
        &languages, space, start, exception, resumes, limit, room, steps,
    )
}

fn without_landing(outcome: Outcome) -> Ending
    ensures { result ≡ record { outcome = outcome; landing = None } }
{
    Ending {
        outcome,
        landing: None,
    }
}

/// Delivers an exception to the stack whose innermost frame has the registers `start`, into a
/// room.
///
/// The room is emptied first. A search visits states from the start outwards, and each is put into
/// the room. Of a frame whose description names a personality, whichever, the language table is
/// asked at the address of the call; so is that of a Mach-O frame whose opcode names one, where its
/// section lists a language table for the function, and the handler data of a PE frame one of whose
/// unwind records names a handler. The search ends at the first frame whose table asks for a
/// handler or to end the program; a table that can't be read ends the program. The frame is kept by
/// its stack pointer, less one where it stands after a signal's frame.
///
/// Where a frame takes the exception, cleanup passes go from the start again. Each enters the first
/// landing pad on its way, with RAX the exception and RDX 0. A pad of the kept frame is the
/// landing. Any other is a cleanup: it is put on the trail, and the next pass starts at the return
/// address that the resume table has for the pad. No memory is taken, and the class isn't read.
/// Source: Itanium C++ ABI, exception handling, levels I and II.
///
/// # Errors
///
/// The first in the order of work; the room is then empty.
///
/// - `FrameLimit` where a pass needs more than `limit` states. A fault of the step from the last
///   allowed state comes first.
/// - `PassLimit` where more than `limit` cleanups would run, `NoResume` where the resume table has
///   no entry for a cleanup's pad.
/// - `Unmapped` and `Table` as in a step, and `Unmapped` where the cell that names the personality
///   isn't wholly mapped.
/// - `MachO`, `CompactForm`, `PeInfo` and `ChainLimit` as in a step. `MachO` also where the opcode of
///   a Mach-O frame names a personality and its section's personalities can't be read or lack that
///   one, or the list of language tables can't be read. `PeInfo` also where a record of a PE frame, up
///   to one that names a handler, can't be read, or that handler's bytes are missing; `ChainLimit`
///   also where more than 32 records are chained up to it.
pub fn deliver_into<L: Ledger>(
    space: &Space<'_>,
    start: &Context,
    exception: u64,
    class: u64,
    resumes: &Resumes,
    limit: u32,
    room: &mut Room,
    steps: &mut Steps<L>,
) -> Result<Ending, DeliverError>
    requires { limit ≤ room.old.limit }
    // The room's states and cleanups and the ending are the delivery, and an error is its first
    // fault.
    ensures exact { IsDelivered result room.new
        (stack_delivery space.now start.now exception resumes.now limit) }
    ensures emptied { OnErr result ((room.new.visited ≡ []) × (room.new.trail ≡ [])) }
    ensures places { room.new.limit ≡ room.old.limit }
    ensures unmapped { (a : ℕ) → result ≡ Err (DeliverError.Unmapped a) →
        word_at space.now.image a ≡ None }
    ensures takes_no_memory { result ≢ Err DeliverError.NoMemory }
    // Each error comes exactly for its cause, and each outcome exactly where the search or a pass
    // meets what it says.
    ensures refused { (error : DeliverError) → (result ≡ Err error) ↔
        IsRefused space.now start.now exception resumes.now limit error }
    ensures ended { (outcome : Outcome) → IsOkAnd result (λ ending. ending.outcome ≡ outcome) ↔
        EndsBy space.now start.now exception resumes.now limit outcome }
    // What is delivered to a valid chain, through modules of whatever format, is what the definition
    // says of the chain.
    ensures chain { (functions : List Function) (s : State) (calls : List Call) →
        StartsValidChain space.now start.now resumes.now limit functions s calls →
        IsOkAnd result (λ ending. ShowsDelivery (delivery_in room.new ending) exception s calls) }
    // What is delivered to a stack of each of whose frames it is known how its caller's state
    // follows and what its language asks is what the definition says of these frames. In an ELF
    // module it may be known by facts that its tables say, at any address of code, and landing pads
    // are entered past the arguments that were pushed.
    ensures known { (s : State) (callers : List State) (frames : List AskedFrame) →
        StartsKnownDelivery space.now start.now resumes.now limit s callers frames →
        IsOkAnd result
        (λ ending. ShowsKnownDelivery (delivery_in room.new ending) exception s callers frames) }
    // Each state that the search or a pass meets is searched for at most once.
    ensures searches { RisesWithin space.now
        (met_in_delivery space.now start.now exception resumes.now limit)
        steps.old.number steps.new.number }
    // These are the search and at most one pass more than the limit, each through as many states as
    // the limit allows.
    ensures ticks { RisesWithin space.now ((limit + 2) * limit) steps.old.number steps.new.number }
    // Over a valid chain, and over a stack that is so known, each visited state is met by the search
    // and by one pass at most, and the state of each cleanup by the pass after it too.
    ensures chain_searches { (functions : List Function) (s : State) (calls : List Call) →
        StartsValidChain space.now start.now resumes.now limit functions s calls →
        RisesWithin space.now (2 * length room.new.visited + length room.new.trail)
        steps.old.number steps.new.number }
    ensures known_searches { (s : State) (callers : List State) (frames : List AskedFrame) →
        StartsKnownDelivery space.now start.now resumes.now limit s callers frames →
        RisesWithin space.now (2 * length room.new.visited + length room.new.trail)
        steps.old.number steps.new.number }
    // In one module that names a header a search takes as many steps as the number of the header's
    // pairs has binary digits, whether the module is prepared or not.
    ensures chain_ticks { (functions : List Function) (s : State) (calls : List Call)
        (digits : ℕ) →
        StartsValidChain space.now start.now resumes.now limit functions s calls →
        HasOneHeader space.now digits →
        steps.new.number ≤ steps.old.number
        + (2 * length room.new.visited + length room.new.trail) * digits }
{
    // It is for languages that tell their own exceptions from those of others.
    let _ = class;
    // No two of its modules share an address, as a space's type says.
    let _ = space.image();
    let own = space.over_own_image();
    fresh_delivery(&own, *start, exception, resumes, limit, room, steps)
}

/// Delivers an exception as [`deliver_into`] does, over a space that is seen over an image which has
/// grown: so one space serves stack after stack, each added to an image of its own.
///
/// # Errors
///
/// Those of [`deliver_into`]; the room is then empty.
pub fn deliver_over<'t, 'a, L: Ledger>(
    space: &GrownSpace<'_, 't, 'a>,
    start: &Context,
    exception: u64,
    resumes: &Resumes,
    limit: u32,
    room: &mut Room,
    steps: &mut Steps<L>,
) -> Result<Ending, DeliverError>
where
    't: 'a,
    requires { limit ≤ room.old.limit }
    // The room's states and cleanups and the ending are the delivery, and an error is its first
    // fault.
    ensures exact { IsDelivered result room.new
        (stack_delivery space.now start.now exception resumes.now limit) }
    ensures emptied { OnErr result ((room.new.visited ≡ []) × (room.new.trail ≡ [])) }
    ensures places { room.new.limit ≡ room.old.limit }
    ensures takes_no_memory { result ≢ Err DeliverError.NoMemory }
    // What is delivered to a stack of each of whose frames it is known how its caller's state
    // follows and what its language asks is what the definition says of these frames.
    ensures known { (s : State) (callers : List State) (frames : List AskedFrame) →
        StartsKnownDelivery space.now start.now resumes.now limit s callers frames →
        IsOkAnd result
        (λ ending. ShowsKnownDelivery (delivery_in room.new ending) exception s callers frames) }
    // Each state that the search or a pass meets is searched for at most once.
    ensures searches { RisesWithin space.now
        (met_in_delivery space.now start.now exception resumes.now limit)
        steps.old.number steps.new.number }
{
    // No two of its modules share an address, as a space's type says.
    let _ = space.image();
    fresh_delivery(space, *start, exception, resumes, limit, room, steps)
}

/// Delivers an exception as [`deliver_into`] does, by the rules of the languages of the functions on
/// the stack.
///
/// A frame whose description names a personality routine that is C++'s is asked by the rule of C++: the
/// first record of the chain of actions that takes the exception decides, and its number is what the
/// landing pad finds in RDX. A call of C++ that no exception may leave ends the program. By libstdc++
/// the cleanups of the frames inside it run first: the search ends there as it does at a handler, and
/// the outcome is `FatalPhase2`. By libc++abi none runs, and the outcome is `FatalPhase1`. A foreign
/// exception ends the program by libstdc++ at a specification that lists nothing, after the cleanups
/// too; by libc++abi every specification takes it. Every other frame is asked as in `deliver_into`.
/// Source: Itanium C++ ABI, exception handling, levels I and II.
///
/// # Errors
///
/// Those of [`deliver_into`]; the room is then empty.
pub fn throw_into<L: Ledger>(
    space: &Space<'_>,
    languages: &Languages<'_>,
    start: &Context,
    exception: u64,
    resumes: &Resumes,
    limit: u32,
    room: &mut Room,
    steps: &mut Steps<L>,
) -> Result<Ending, DeliverError>
    requires { limit ≤ room.old.limit }
    // The room's states and cleanups and the ending are the delivery, and an error is its first
    // fault.
    ensures exact { IsDelivered result room.new
        (delivery_through (languages_of languages.now) space.now start.now exception resumes.now
        limit) }
    ensures emptied { OnErr result ((room.new.visited ≡ []) × (room.new.trail ≡ [])) }
    ensures places { room.new.limit ≡ room.old.limit }
    ensures unmapped { (a : ℕ) → result ≡ Err (DeliverError.Unmapped a) →
        word_at space.now.image a ≡ None }
    ensures takes_no_memory { result ≢ Err DeliverError.NoMemory }
    // Each error comes exactly for its cause, and each outcome exactly where the search or a pass
    // meets what it says.
    ensures refused { (error : DeliverError) → (result ≡ Err error) ↔
        IsRefusedThrough (languages_of languages.now) space.now start.now exception resumes.now
        limit error }
    ensures ended { (outcome : Outcome) → IsOkAnd result (λ ending. ending.outcome ≡ outcome) ↔
        EndsThrough (languages_of languages.now) space.now start.now exception resumes.now limit
        outcome }
    // What is delivered to a stack of each of whose frames it is known how its caller's state
    // follows and what its language table says is what the definition says of these frames: each
    // cleanup inside the frame that takes the exception runs once, in order, and then its handler
    // is entered with the number of the record that matched, or the program ends there.
    ensures known { (s : State) (callers : List State) (frames : List AskingFrame) →
        StartsKnownThrow (languages_of languages.now) space.now start.now resumes.now limit s
        callers frames →
        IsOkAnd result
        (λ ending. ShowsKnownThrow (delivery_in room.new ending) exception s callers frames) }
    // Each state that the search or a pass meets is searched for at most once.
    ensures searches { RisesWithin space.now
        (met_through (languages_of languages.now) space.now start.now exception resumes.now limit)
        steps.old.number steps.new.number }
    // These are the search and at most one pass more than the limit, each through as many states as
    // the limit allows.
    ensures ticks { RisesWithin space.now ((limit + 2) * limit) steps.old.number steps.new.number }
{
    // No two of its modules share an address, as a space's type says.
    let _ = space.image();
    let own = space.over_own_image();
    fresh_throw(
        languages, &own, *start, exception, resumes, limit, room, steps,
    )
}

/// Delivers an exception to the stack whose innermost frame has the registers `start`.
///
/// It is `deliver_into` over a room of `limit` places, which is reserved for it and not filled.
///
/// # Errors
///
/// `NoMemory` where memory ran out; else the errors of `deliver_into`.
pub fn deliver(
    alloc: Global,
    space: &Space<'_>,
    start: &Context,
    exception: u64,
    class: u64,
    resumes: &Resumes,
    limit: u32,
) -> Result<Delivery, DeliverError>
    ensures exact { GivesUnlessNoMemory result
        (stack_delivery space.now start.now exception resumes.now limit) }
    ensures unmapped { (a : ℕ) → result ≡ Err (DeliverError.Unmapped a) →
        word_at space.now.image a ≡ None }
    // Each error but that of memory comes only for its cause, and each outcome only where the
    // search or a pass meets what it says.
    ensures refused { (error : DeliverError) → error ≢ DeliverError.NoMemory → result ≡ Err error →
        IsRefused space.now start.now exception resumes.now limit error }
    ensures ended { (outcome : Outcome) → IsOkAnd result (λ delivery. delivery.outcome ≡ outcome) →
        EndsBy space.now start.now exception resumes.now limit outcome }
    // For each cause nothing else comes, unless memory runs out.
    ensures refuses { (error : DeliverError) →
        IsRefused space.now start.now exception resumes.now limit error →
        (result ≡ Err DeliverError.NoMemory) ⊎ (result ≡ Err error) }
    ensures ends { (outcome : Outcome) →
        EndsBy space.now start.now exception resumes.now limit outcome →
        (result ≡ Err DeliverError.NoMemory) ⊎
        IsOkAnd result (λ delivery. delivery.outcome ≡ outcome) }
    // What is delivered to a valid chain, through modules of whatever format, is what the definition
    // says of the chain.
    ensures chain { (functions : List Function) (s : State) (calls : List Call) →
        StartsValidChain space.now start.now resumes.now limit functions s calls →
        (result ≡ Err DeliverError.NoMemory) ⊎
        IsOkAnd result (λ delivery. ShowsDelivery delivery exception s calls) }
    // What is delivered to a stack that is known frame by frame, with what its frames ask, is what
    // the definition says of these frames.
    ensures known { (s : State) (callers : List State) (frames : List AskedFrame) →
        StartsKnownDelivery space.now start.now resumes.now limit s callers frames →
        (result ≡ Err DeliverError.NoMemory) ⊎
        IsOkAnd result (λ delivery. ShowsKnownDelivery delivery exception s callers frames) }
{
    let mut room = Room::new(alloc, limit)?;
    let ending = deliver_into(
        space,
        start,
        exception,
        class,
        resumes,
        limit,
        &mut room,
        &mut Steps::new(NoLedger),
    )?;
    Ok(Delivery { room, ending })
}

/// Delivers an exception as [`deliver`] does, by the rules of the languages of the functions on the
/// stack.
///
/// It is `throw_into` over a room of `limit` places, which is reserved for it and not filled.
///
/// # Errors
///
/// `NoMemory` where memory ran out; else the errors of `throw_into`.
pub fn throw(
    alloc: Global,
    space: &Space<'_>,
    languages: &Languages<'_>,
    start: &Context,
    exception: u64,
    resumes: &Resumes,
    limit: u32,
) -> Result<Delivery, DeliverError>
    ensures exact { GivesUnlessNoMemory result
        (delivery_through (languages_of languages.now) space.now start.now exception resumes.now
        limit) }
    ensures unmapped { (a : ℕ) → result ≡ Err (DeliverError.Unmapped a) →
        word_at space.now.image a ≡ None }
    // Each error but that of memory comes only for its cause, and each outcome only where the
    // search or a pass meets what it says.
    ensures refused { (error : DeliverError) → error ≢ DeliverError.NoMemory → result ≡ Err error →
        IsRefusedThrough (languages_of languages.now) space.now start.now exception resumes.now
        limit error }
    ensures ended { (outcome : Outcome) → IsOkAnd result (λ delivery. delivery.outcome ≡ outcome) →
        EndsThrough (languages_of languages.now) space.now start.now exception resumes.now limit
        outcome }
    // For each cause nothing else comes, unless memory runs out.
    ensures refuses { (error : DeliverError) →
        IsRefusedThrough (languages_of languages.now) space.now start.now exception resumes.now
        limit error →
        (result ≡ Err DeliverError.NoMemory) ⊎ (result ≡ Err error) }
    ensures ends { (outcome : Outcome) →
        EndsThrough (languages_of languages.now) space.now start.now exception resumes.now limit
        outcome →
        (result ≡ Err DeliverError.NoMemory) ⊎
        IsOkAnd result (λ delivery. delivery.outcome ≡ outcome) }
    // What is delivered to a stack that is known frame by frame, with what its frames' language
    // tables ask, is what the definition says of these frames.
    ensures known { (s : State) (callers : List State) (frames : List AskingFrame) →
        StartsKnownThrow (languages_of languages.now) space.now start.now resumes.now limit s
        callers frames →
        (result ≡ Err DeliverError.NoMemory) ⊎
        IsOkAnd result (λ delivery. ShowsKnownThrow delivery exception s callers frames) }
{
    let mut room = Room::new(alloc, limit)?;
    let ending = throw_into(
        space,
        languages,
        start,
        exception,
        resumes,
        limit,
        &mut room,
        &mut Steps::new(NoLedger),
    )?;
    Ok(Delivery { ending, room })
}
