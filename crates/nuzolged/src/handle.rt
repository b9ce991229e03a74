// A session in C: its pointer.
ghost use Rattle.std.specs.Prelude.{◌≡◌, Option, Some, None, option_map};
ghost use Rattle.std.specs.Coded.{coded_option};
ghost use Rattle.std.specs.contracts.impls.GlobalAllocator.TheImpl.{ghosts};
ghost use Rattle.ft_session.specs.declared.session.Session.{Session as SessionOf};
ghost use Rattle.ft_session.specs.contracts.session.Session.{the_row};
ghost use Rattle.nuzolged.specs.Handles.{held};

use ft_loose::RawBox;
use ft_session::Session;
use std::alloc::Global;
use std::marker::Model;

/// A tree, as its pointer leads C to it: null, or the pointer of a session, which it owns. It is a
/// `nuz_tree` of the header. No function leaves one closed that is not.
#[repr(C)]
pub struct Handle {
    at: *mut u8,
    alloc: Global,
    pub ghost session: { Option SessionOf } by { coded_option (the_row).coded },
}

impl Model for Handle {
    ghost also_owns = { λ h. held (ghosts.dealloc_token h.alloc) the_row h.at h.session };
}

impl Handle {
    /// Returns a closed handle.
    pub(crate) fn closed(alloc: Global) -> Handle
        ensures { result.session ≡ None }
    {
        Handle {
            at: std::ptr::null_mut(),
            alloc,
        }
    }

    /// Returns a handle of a session.
    fn of(loose: RawBox<Session, Global>) -> Handle
        ensures { result.session ≡ Some loose.value }
    {
        let RawBox { at, alloc } = loose;
        Handle {
            at: at as *mut u8,
            alloc,
        }
    }

    /// Returns its contents.
    fn into_loose(self) -> Option<RawBox<Session, Global>>
        ensures { option_map (λ loose. loose.value) result ≡ self.session }
    {
        let Handle { at, alloc } = self;
        if at.is_null() {
            return None;
        }
        Some(RawBox {
            at: at as *mut Session,
            alloc,
        })
    }

    /// Takes out the session, if it holds one.
    pub(crate) fn take(&mut self, alloc: Global) -> Option<Box<Session>>
        ensures taken { option_map (λ session. session.value) result ≡ self.old.session }
        ensures closed { self.new.session ≡ None }
    {
        let handle = std::mem::replace(self, Handle::closed(alloc));
        match handle.into_loose() {
            None => None,
            Some(loose) => Some(loose.into_box()),
        }
    }

    /// Puts a session in. One that it holds is ended.
    pub(crate) fn put(&mut self, session: Box<Session>)
        ensures { self.new.session ≡ Some session.value }
    {
        *self = Handle::of(RawBox::from_box(session));
    }
}

impl Drop for Handle {
    fn drop(self) {
        match self.into_loose() {
            None => {}
            Some(loose) => drop(loose.into_box()),
        }
    }
}

// A session may go to another thread, and so may its handle (`laws`).
unsafe impl Send for Handle {}
