// A session by a pointer that doesn't name its type, as a caller in C keeps it.
ghost use Rattle.std.specs.Prelude.{◌≡◌, Option, Some};
ghost use Rattle.std.specs.Borrow.{sem};
ghost use Rattle.kalzurenk_c.specs.HandleOwns.{session_coded, session_owns, slot_coded, slot_owns};
ghost use Rattle.kalzurenk_c.specs.SessionValues.{SessionValue};

mod parts;

use crate::session::Session;
use parts::Parts;
use std::alloc::Global;
use std::marker::Model;

/// A session that a caller keeps, as its pointer.
///
/// Contracts see the session.
#[repr(C)]
pub struct SessionHandle {
    at: *mut u8,
    alloc: Global,
    pub ghost value: { SessionValue } by { session_coded },
}

impl Model for SessionHandle {
    ghost also_owns = { λ h. session_owns h.alloc h.at h.value };
}

impl SessionHandle {
    ghost use Rattle.kalzurenk_c.specs.Lending.{LendsSession};

    /// The session.
    pub(crate) fn as_mut(&mut self) -> &mut Session
        ensures* writes_back { sem 𝓛 (LendsSession self.entry result) }
        ensures value { result.now ≡ self.old.value }
    {
        unsafe { &mut *self.at.cast::<Session>() }
    }

    /// The box of the session.
    pub(crate) fn into_box(self) -> Box<Session>
        ensures { result.value ≡ self.value }
    {
        self.into_parts().into_box()
    }

    /// The parts of the box of the session.
    fn into_parts(self) -> Parts<Session, Global>
        ensures { result.value ≡ self.value }
    {
        let SessionHandle { at, alloc } = self;
        Parts {
            ptr: at.cast::<Session>(),
            alloc,
        }
    }
}

/// Where a session is put that is opened, as a caller in C hands it in: what it holds is its pointer, as
/// in [`SessionHandle`], or nothing yet. A session that is in it already isn't closed when another one is
/// put there.
///
/// Contracts see the session, if there is one.
#[repr(C)]
#[derive(Drop)]
pub struct SessionSlot {
    at: *mut u8,
    alloc: Global,
    pub ghost value: { Option SessionValue } by { slot_coded },
}

impl Model for SessionSlot {
    ghost also_owns = { λ s. slot_owns s.alloc s.at s.value };
}

impl SessionSlot {
    /// With the session of a box.
    pub(crate) fn of(boxed: Box<Session>) -> SessionSlot
        ensures { result.value ≡ Some boxed.value }
    {
        SessionSlot::of_parts(Parts::of(boxed))
    }

    /// With the session of the parts of a box.
    fn of_parts(parts: Parts<Session, Global>) -> SessionSlot
        ensures { result.value ≡ Some parts.value }
    {
        let Parts { ptr, alloc } = parts;
        SessionSlot {
            at: ptr.cast::<u8>(),
            alloc,
        }
    }
}
