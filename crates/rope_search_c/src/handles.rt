//! A session as C holds it: a handle, open or closed.
ghost use Rattle.std.specs.Prelude.{◌≡◌, Option, None, Some, option_map};
ghost use Rattle.rope_search_c.specs.declared.counting.CountingSession.{CountingSession};
ghost use Rattle.rope_search_c.specs.Handles.{handle_owns, held_coded};

mod raw_box;

use crate::counting::CountingSession;
use core::mem;
use raw_box::RawBox;
use std::alloc::Global;
use std::marker::Model;
use std::ptr::null_mut;

/// The status of a call on a closed handle, for calls that return a status.
pub(crate) const CLOSED: u32 = 8;

/// A session that C holds by a pointer, or none: then the handle is closed. C keeps it by value, as
/// a pointer and a flag, and starts with zeros, which are a closed handle. Two copies of an open
/// one must not both be used.
#[repr(C)]
pub struct Handle {
    ptr: *mut u8,
    is_open: bool,
    alloc: Global,
    /// The session, if the handle is open.
    pub ghost held: { Option CountingSession } by { held_coded },
}

impl Model for Handle {
    ghost also_owns = { λ h. handle_owns h.alloc h.ptr h.is_open h.held };
}

impl Handle {
    /// Returns an open handle.
    pub fn of(session: Box<CountingSession>) -> Handle
        ensures { result.held ≡ Some session.value }
    {
        Handle::of_parts(RawBox::of(session))
    }

    /// Returns a closed handle.
    pub fn closed(alloc: Global) -> Handle
        ensures { result.held ≡ None }
    {
        let ptr: *mut u8 = null_mut();
        Handle::closed_at(alloc, ptr)
    }

    /// Takes the session out, if the handle is open, and leaves it closed.
    pub fn take(&mut self, alloc: Global) -> Option<Box<CountingSession>>
        ensures taken { option_map (λ session. session.value) result ≡ self.old.held }
        ensures closed { self.new.held ≡ None }
    {
        mem::replace(self, Handle::closed(alloc)).into_box()
    }

    /// Returns the session, if the handle is open.
    fn into_box(self) -> Option<Box<CountingSession>>
        ensures { option_map (λ session. session.value) result ≡ self.held }
    {
        match self.into_parts() {
            None => None,
            Some(parts) => Some(parts.into_box()),
        }
    }

    // The three functions below are proved by hand, because they name the pointer.

    fn closed_at(alloc: Global, ptr: *mut u8) -> Handle
        ensures { result.held ≡ None }
    {
        Handle {
            ptr,
            is_open: false,
            alloc,
        }
    }

    fn of_parts(parts: RawBox<CountingSession, Global>) -> Handle
        ensures { result.held ≡ Some parts.value }
    {
        let RawBox { ptr, alloc } = parts;
        Handle {
            ptr: ptr as *mut u8,
            is_open: true,
            alloc,
        }
    }

    fn into_parts(self) -> Option<RawBox<CountingSession, Global>>
        ensures { option_map (λ parts. parts.value) result ≡ self.held }
    {
        let Handle {
            ptr,
            is_open,
            alloc,
        } = self;
        if is_open {
            Some(RawBox {
                ptr: ptr as *mut CountingSession,
                alloc,
            })
        } else {
            None
        }
    }
}

impl Drop for Handle {
    fn drop(self) {
        drop(self.into_box());
    }
}
