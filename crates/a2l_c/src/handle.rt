//! A session by a pointer that C can hold.

ghost use Rattle.std.specs.Prelude.{◌≡◌, Option, None, Some, IsSome};
ghost use Rattle.a2l_c.specs.SessionState.{SessionState};
ghost use Rattle.a2l_c.specs.Held.{held, held_code};

use crate::parts::Parts;
use crate::session::Session;
use std::alloc::Global;
use std::marker::Model;
use std::mem;
use std::ptr::null_mut;

/// A session, or none. Where there is none, its bytes don't matter, so C makes one of zeros.
#[repr(C)]
#[derive(Drop)]
pub struct Handle {
    at: *mut u8,
    alloc: Global,
    pub ghost session: { Option SessionState } by { held_code },
}

impl Model for Handle {
    ghost also_owns = { λ h. held h.alloc h.at h.session };
}

/// What it is called with may go to another thread.
fn crosses<T: Send>(_value: &T) {}

impl Handle {
    /// Holds nothing.
    pub(crate) fn empty(alloc: Global) -> Handle
        ensures { result.session ≡ None }
    {
        Handle {
            at: null_mut(),
            alloc,
        }
    }

    /// Holds what the parts of a box own.
    fn of_parts(parts: Parts<Session, Global>) -> Handle
        ensures { result.session ≡ Some parts.value }
    {
        let Parts { ptr, alloc } = parts;
        Handle {
            at: ptr as *mut u8,
            alloc,
        }
    }

    /// The parts of the box that it holds.
    fn into_parts(self) -> Parts<Session, Global>
        requires { IsSome self.session }
        ensures { self.session ≡ Some result.value }
    {
        let Handle { at, alloc } = self;
        Parts {
            ptr: at as *mut Session,
            alloc,
        }
    }

    /// Takes the session out.
    pub(crate) fn take(&mut self, alloc: Global) -> Box<Session>
        requires { IsSome self.old.session }
        ensures session { self.old.session ≡ Some result.value }
        ensures empty { self.new.session ≡ None }
    {
        let held = mem::replace(self, Handle::empty(alloc));
        held.into_parts().into_box()
    }

    /// Holds a session, where it holds none.
    pub(crate) fn put(&mut self, session: Box<Session>)
        requires { self.old.session ≡ None }
        ensures { self.new.session ≡ Some session.value }
    {
        crosses(&*session);
        *self = Handle::of_parts(Parts::of(session));
    }
}

// C may hand a handle to another thread: what it owns may go there.
unsafe impl Send for Handle {}
