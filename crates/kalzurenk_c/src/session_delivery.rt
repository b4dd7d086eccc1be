// Deliveries over the modules of a session.
ghost use Rattle.std.specs.Prelude.{◌≡◌};
ghost use Rattle.kalzurenk_c.specs.Deliveries.{DeliversOver, TellsDeliveryUnlessNoMemory};
ghost use Rattle.kalzurenk_c.specs.Deliveries.{delivery_over, delivery_sized};
ghost use Rattle.kalzurenk_c.specs.Given.{context_of, spans_of};

use crate::delivery::{Cleanup, DeliveryTold, PendingDelivery, ResumePair, Throw, delivery_sized};
use crate::given::{Region, Registers};
use crate::handle::SessionHandle;
use crate::refusal::{Place, Refusal, answered};
use crate::sample::unwind_sample;
use crate::session::Session;
use std::alloc::Global;

/// Delivers over a session, and tells the cleanups and the ending. Nothing is told otherwise.
fn deliver_in_session(
    alloc: Global,
    session: &Session,
    regions: &[Region<'_>],
    start: &Registers,
    thrown: &Throw,
    pairs: &[ResumePair],
    cleanups: &mut [Cleanup],
    delivery: &mut DeliveryTold,
) -> Result<(), Refusal>
    ensures { DeliversOver result
        (delivery_over session.now.space (spans_of regions.now) pairs.now)
        (context_of start.now) thrown.now.exception thrown.now.limit
        cleanups.old cleanups.new delivery.old delivery.new }
{
    let mut pending = PendingDelivery::new(alloc, start, thrown, pairs)?;
    unwind_sample(session.space(), regions, &mut pending, cleanups, delivery)
}

/// The same where each size is known.
fn deliver_sized(
    alloc: Global,
    session: &Session,
    regions: &[Region<'_>],
    start: &Registers,
    thrown: &Throw,
    pairs: &[ResumePair],
    cleanups: &mut [Cleanup],
    delivery: &mut DeliveryTold,
    place: &Place,
) -> Result<(), Refusal>
    ensures { DeliversOver result
        (delivery_sized place.now.size start.now.size thrown.now.size delivery.old.size
        delivery.old.cleanup_size
        (delivery_over session.now.space (spans_of regions.now) pairs.now))
        (context_of start.now) thrown.now.exception thrown.now.limit
        cleanups.old cleanups.new delivery.old delivery.new }
{
    delivery_sized(start, thrown, delivery, place)?;
    deliver_in_session(
        alloc, session, regions, start, thrown, pairs, cleanups, delivery,
    )
}

/// Delivers an exception to the stack of a thread as [`kz_deliver`](crate::kz_deliver) does, over the
/// modules of a session, whose indexes serve again. `regions` is memory beside the session's: the
/// thread's stack. The pairs of the resume table are looked at before the regions.
#[unsafe(no_mangle)]
pub extern "C" fn kz_session_deliver(
    alloc: Global,
    session: &mut SessionHandle,
    regions: &[Region<'_>],
    start: &Registers,
    thrown: &Throw,
    pairs: &[ResumePair],
    cleanups: &mut [Cleanup],
    delivery: &mut DeliveryTold,
    place: &mut Place,
) -> u32
    ensures told { TellsDeliveryUnlessNoMemory
        (delivery_sized place.old.size start.now.size thrown.now.size delivery.old.size
        delivery.old.cleanup_size
        (delivery_over session.old.value.space (spans_of regions.now) pairs.now))
        (context_of start.now) thrown.now.exception thrown.now.limit
        (record { status = 0; cleanups = cleanups.old; delivery = delivery.old; place = place.old })
        (record {
          status = result;
          cleanups = cleanups.new;
          delivery = delivery.new;
          place = place.new;
        }) }
    ensures space { session.new.value.space ≡ session.old.value.space }
    ensures limit { session.new.value.limit ≡ session.old.value.limit }
{
    let kept = session.as_mut();
    let told = deliver_sized(
        alloc, kept, regions, start, thrown, pairs, cleanups, delivery, place,
    );
    answered(told, place)
}
