// One delivery over what is handed in.
ghost use Rattle.std.specs.Prelude.{◌≡◌, ◌≤◌, [], Result, Err, Ok};
ghost use Rattle.kalzurenk_c.specs.Given.{GivesUnlessNoMemory, context_of};
ghost use Rattle.kalzurenk_c.specs.Deliveries.{DeliversOver, TellsDeliveryUnlessNoMemory};
ghost use Rattle.kalzurenk_c.specs.Deliveries.{cleanups_over, delivery_given, delivery_sized};
ghost use Rattle.kalzurenk_c.specs.Deliveries.{delivery_told, resumes_after};
ghost use Rattle.kalzurenk_c.specs.Deliveries.{cleanup_of, due_told, ip_told, outcome_number};
ghost use Rattle.kalzurenk_c.specs.Deliveries.{registers_told};
ghost use Rattle.kalzurenk_c.specs.Deliveries.{IsPending, TellsDelivery, with_space};
ghost use Rattle.stack_deliver.specs.Delivering.{IsDelivered, delivery_in};
ghost use Rattle.stack_deliver.specs.StackDelivery.{DeliveryValue};
ghost use Rattle.stack_steps.specs.declared.error.DeliverError.{DeliverError};

use crate::given::{GivenModule, Region, Registers, context_of, space_of};
use crate::numbers::refused_end;
use crate::refusal::{Place, Refusal, answered};
use crate::sample::Unwinding;
use crate::sizes::{
    CLEANUP_SIZE, DELIVERY_SIZE, REGISTERS_SIZE, RESUME_SIZE, THROW_SIZE, place_sized,
};
use memory_image::{NoLedger, Steps};
use stack_deliver::{Ending, Outcome, Resumes, deliver_over};
use stack_steps::{DeliverError, GrownSpace};
use stack_walks::{Room, Trail};
use std::alloc::Global;
use unwind_arch::x86_64::Context;

/// What is thrown.
#[repr(C)]
#[derive(Clone, Copy, Drop)]
pub struct Throw {
    /// How many bytes this struct has.
    pub size: u64,
    /// What RAX holds at each landing pad: where the exception lies.
    pub exception: u64,
    /// The most states of the search and of a pass, and the most cleanups.
    pub limit: u32,
}

/// Where a delivery goes on after the cleanup at a landing pad.
#[repr(C)]
#[derive(Clone, Copy, Drop)]
pub struct ResumePair {
    /// How many bytes this struct has.
    pub size: u64,
    /// The landing pad.
    pub pad: u64,
    /// The return address of the call that ends the cleanup. Of several pairs of one pad the first
    /// counts.
    pub ret: u64,
}

/// A cleanup that runs.
#[repr(C)]
#[derive(Clone, Copy, Drop)]
pub struct Cleanup {
    /// The landing pad at which it begins.
    pub pad: u64,
    /// The stack pointer there.
    pub sp: u64,
}

/// What a delivery does.
#[repr(C)]
#[derive(Clone, Copy, Drop)]
pub struct DeliveryTold {
    /// How many bytes this struct has.
    pub size: u64,
    /// How many bytes a cleanup has.
    pub cleanup_size: u64,
    /// How many states the search visits.
    pub visited: u64,
    /// How many cleanups run.
    pub cleanups: u64,
    /// The address that isn't mapped, or the landing pad without a return address, where the delivery
    /// is refused for it; else 0.
    pub detail: u64,
    /// How it ends, by the numbers of `kalzurenk.h`.
    pub outcome: u32,
    /// Why it is refused, by its numbers; else 0.
    pub error: u32,
    /// The general registers at the handler, in the order of [`Registers`]; else 0.
    pub general: [u64; 16],
    /// The handler's landing pad; else 0.
    pub ip: u64,
}

/// An exception, and the state from which it is raised.
#[derive(Clone, Copy, Drop)]
struct Raised {
    context: Context,
    exception: u64,
    limit: u32,
}

/// A delivery that is to be made: what is raised, the table of return addresses, and room for its states
/// and cleanups.
#[derive(Drop)]
pub(crate) struct PendingDelivery {
    raised: Raised,
    resumes: Resumes,
    room: Room,
}

/// What is thrown from a start.
fn raised_from(start: &Registers, thrown: &Throw) -> Raised
    ensures { result ≡ record {
      context = context_of start.now;
      exception = thrown.now.exception;
      limit = thrown.now.limit;
    } }
{
    Raised {
        context: context_of(start),
        exception: thrown.exception,
        limit: thrown.limit,
    }
}

/// Whether the sizes are known of what a delivery starts from and is told in.
pub(crate) fn delivery_sized(
    start: &Registers,
    thrown: &Throw,
    delivery: &DeliveryTold,
    place: &Place,
) -> Result<(), Refusal>
    ensures { result ≡ delivery_sized place.now.size start.now.size thrown.now.size
        delivery.now.size delivery.now.cleanup_size (Ok tt) }
{
    place_sized(place)?;
    if start.size != REGISTERS_SIZE {
        return Err(Refusal::RegistersSize);
    }
    if thrown.size != THROW_SIZE {
        return Err(Refusal::ThrowSize);
    }
    if delivery.size != DELIVERY_SIZE {
        return Err(Refusal::DeliverySize);
    }
    if delivery.cleanup_size != CLEANUP_SIZE {
        return Err(Refusal::CleanupSize);
    }
    Ok(())
}

/// The table of these pairs.
fn resumes_of(alloc: Global, pairs: &[ResumePair]) -> Result<Resumes, Refusal>
    ensures { GivesUnlessNoMemory result (resumes_after 0 [] pairs.now) }
{
    let mut resumes = Resumes::new(alloc);
    let mut place = 0;
    for pair in pairs {
        if pair.size != RESUME_SIZE {
            return Err(Refusal::ResumeSize(place));
        }
        let Ok(()) = resumes.add(pair.pad, pair.ret) else {
            return Err(Refusal::NoMemory);
        };
        place += 1;
    }
    Ok(resumes)
}

/// A cleanup that ran.
fn cleanup_of(cleanup: &Trail) -> Cleanup
    ensures { result ≡ cleanup_of cleanup.now }
{
    Cleanup {
        pad: cleanup.pad,
        sp: cleanup.sp,
    }
}

/// Puts the cleanups in a room into places, as far as there are places.
fn put_cleanups(room: &Room, cleanups: &mut [Cleanup])
    ensures { cleanups.new ≡ cleanups_over room.now.trail cleanups.old }
{
    let count = room.trail_len();
    let places = cleanups.len();
    let told = if count <= places { count } else { places };
    for i in 0..told {
        let cleanup = room.trail(i).unwrap();
        cleanups[i] = cleanup_of(&cleanup);
    }
}

/// The number of an outcome.
fn outcome_number(outcome: Outcome) -> u32
    ensures { result ≡ outcome_number outcome }
{
    match outcome {
        Outcome::Installed => 0,
        Outcome::EndOfStack => 1,
        Outcome::FatalPhase1 => 2,
        Outcome::FatalPhase2 => 3,
    }
}

/// The registers at a handler.
fn registers_told(landing: Option<Context>) -> ([u64; 16], u64)
    ensures general { result.0 ≡ registers_told landing }
    ensures ip { result.1 ≡ ip_told landing }
{
    match landing {
        Some(context) => {
            let general = context.registers;
            (general, context.ra)
        }
        None => ([0; 16], 0),
    }
}

/// What is told of a delivery that left its states and cleanups in a room.
fn ending_told(room: &Room, ending: &Ending) -> DeliveryTold
    ensures { result ≡ delivery_told (delivery_in room.now ending.now) }
{
    let (general, ip) = registers_told(ending.landing);
    DeliveryTold {
        size: DELIVERY_SIZE,
        cleanup_size: CLEANUP_SIZE,
        visited: room.visited_len() as u64,
        cleanups: room.trail_len() as u64,
        detail: 0,
        outcome: outcome_number(ending.outcome),
        error: 0,
        general,
        ip,
    }
}

/// What is told of a delivery that is refused.
fn refused_told(error: DeliverError) -> DeliveryTold
    ensures { result ≡ due_told (Err error) }
{
    let (error, detail) = refused_end(error);
    DeliveryTold {
        size: DELIVERY_SIZE,
        cleanup_size: CLEANUP_SIZE,
        visited: 0,
        cleanups: 0,
        detail,
        outcome: 4,
        error,
        general: [0; 16],
        ip: 0,
    }
}

/// What is told of a delivery into a room.
fn told_of(room: &Room, delivered: Result<Ending, DeliverError>) -> DeliveryTold
    ensures { (due : Result DeliveryValue DeliverError) → IsDelivered delivered room.now due →
        result ≡ due_told due }
{
    match delivered {
        Ok(ending) => ending_told(room, &ending),
        Err(error) => refused_told(error),
    }
}

/// Delivers over a space, and tells the cleanups and the ending.
fn write_delivery<'t, 'a>(
    space: &GrownSpace<'_, 't, 'a>,
    resumes: &Resumes,
    raised: &Raised,
    room: &mut Room,
    cleanups: &mut [Cleanup],
    delivery: &mut DeliveryTold,
)
where
    't: 'a,
    requires { raised.now.limit ≤ room.old.limit }
    ensures { TellsDelivery (record { space = space.now; resumes = resumes.now })
        raised.now.context raised.now.exception raised.now.limit
        cleanups.old cleanups.new delivery.new }
{
    let mut steps = Steps::new(NoLedger);
    let Raised {
        context,
        exception,
        limit,
    } = *raised;
    let delivered = deliver_over(space, &context, exception, resumes, limit, room, &mut steps);
    put_cleanups(room, cleanups);
    *delivery = told_of(room, delivered);
}

impl PendingDelivery {
    /// The delivery of what is thrown from a start, with the table of these pairs.
    pub(crate) fn new(
        alloc: Global,
        start: &Registers,
        thrown: &Throw,
        pairs: &[ResumePair],
    ) -> Result<PendingDelivery, Refusal>
        ensures { IsPending result (resumes_after 0 [] pairs.now) (context_of start.now)
            thrown.now.exception thrown.now.limit }
    {
        let resumes = resumes_of(alloc, pairs)?;
        let Ok(room) = Room::new(alloc, thrown.limit) else {
            return Err(Refusal::NoMemory);
        };
        Ok(PendingDelivery {
            raised: raised_from(start, thrown),
            resumes,
            room,
        })
    }
}

impl Unwinding for PendingDelivery {
    type Entry = Cleanup;

    type Ending = DeliveryTold;

    ghost fits = { λ d places. d.raised.limit ≤ d.room.limit };

    ghost leaves = { λ d space before cleanups told.
        TellsDelivery (with_space space d.resumes) d.raised.context d.raised.exception
        d.raised.limit before cleanups told };

    fn unwind(
        &mut self,
        space: &GrownSpace<'_, 'static, '_>,
        cleanups: &mut [Cleanup],
        delivery: &mut DeliveryTold,
    ) {
        write_delivery(
            space,
            &self.resumes,
            &self.raised,
            &mut self.room,
            cleanups,
            delivery,
        );
    }
}

/// Delivers over what is handed in, and tells the cleanups and the ending. Nothing is told otherwise.
fn deliver_given(
    alloc: Global,
    regions: &[Region<'_>],
    modules: &[GivenModule],
    start: &Registers,
    thrown: &Throw,
    pairs: &[ResumePair],
    cleanups: &mut [Cleanup],
    delivery: &mut DeliveryTold,
) -> Result<(), Refusal>
    ensures { DeliversOver result (delivery_given regions.now modules.now pairs.now)
        (context_of start.now) thrown.now.exception thrown.now.limit
        cleanups.old cleanups.new delivery.old delivery.new }
{
    let space = space_of(alloc, regions, modules)?;
    let mut pending = PendingDelivery::new(alloc, start, thrown, pairs)?;
    let own = space.over_own_image();
    write_delivery(
        &own,
        &pending.resumes,
        &pending.raised,
        &mut pending.room,
        cleanups,
        delivery,
    );
    Ok(())
}

/// The same where each size is known.
fn deliver_sized(
    alloc: Global,
    regions: &[Region<'_>],
    modules: &[GivenModule],
    start: &Registers,
    thrown: &Throw,
    pairs: &[ResumePair],
    cleanups: &mut [Cleanup],
    delivery: &mut DeliveryTold,
    place: &Place,
) -> Result<(), Refusal>
    ensures { DeliversOver result
        (delivery_sized place.now.size start.now.size thrown.now.size delivery.old.size
        delivery.old.cleanup_size (delivery_given regions.now modules.now pairs.now))
        (context_of start.now) thrown.now.exception thrown.now.limit
        cleanups.old cleanups.new delivery.old delivery.new }
{
    delivery_sized(start, thrown, delivery, place)?;
    deliver_given(
        alloc, regions, modules, start, thrown, pairs, cleanups, delivery,
    )
}

/// Delivers an exception to the stack of a thread that throws: a search for a frame that takes it, and
/// then the cleanups on the way there, up to the handler's landing pad. Itanium C++ ABI, exception
/// handling, level I.
///
/// `start` is the state at which the thread was stopped in a call, from which the exception is thrown;
/// regions and modules are as of [`kz_walk`](crate::kz_walk). `pairs` says where each cleanup returns
/// to. Of the cleanups, from the innermost outwards, as many are written as there are places. The number
/// that is answered is a status: 0 where the delivery is told, though it may be refused, and else as of
/// `kz_walk`.
#[unsafe(no_mangle)]
pub extern "C" fn kz_deliver(
    alloc: Global,
    regions: &[Region<'_>],
    modules: &[GivenModule],
    start: &Registers,
    thrown: &Throw,
    pairs: &[ResumePair],
    cleanups: &mut [Cleanup],
    delivery: &mut DeliveryTold,
    place: &mut Place,
) -> u32
    ensures { TellsDeliveryUnlessNoMemory
        (delivery_sized place.old.size start.now.size thrown.now.size delivery.old.size
        delivery.old.cleanup_size (delivery_given regions.now modules.now pairs.now))
        (context_of start.now) thrown.now.exception thrown.now.limit
        (record { status = 0; cleanups = cleanups.old; delivery = delivery.old; place = place.old })
        (record {
          status = result;
          cleanups = cleanups.new;
          delivery = delivery.new;
          place = place.new;
        }) }
{
    let told = deliver_sized(
        alloc, regions, modules, start, thrown, pairs, cleanups, delivery, place,
    );
    answered(told, place)
}
