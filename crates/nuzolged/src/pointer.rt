// A handle in C: its pointer.
ghost use Rattle.std.specs.Prelude.{◌≡◌, Option, Some, None, option_map};
ghost use Rattle.std.specs.Coded.{coded_option};
ghost use Rattle.std.specs.contracts.impls.GlobalAllocator.TheImpl.{ghosts};
ghost use Rattle.nuzolged.specs.declared.handle.Handle.{Handle as HandleOf};
ghost use Rattle.nuzolged.specs.contracts.handle.Handle.{the_row};
ghost use Rattle.nuzolged.specs.Handles.{held};

use crate::handle::Handle;
use ft_loose::RawBox;
use std::alloc::Global;
use std::marker::Model;

/// A tree that C owns: null, or the pointer of a handle. It is a `nuz_tree *` of the header.
#[repr(C)]
pub struct TreePointer {
    at: *mut u8,
    alloc: Global,
    pub ghost tree: { Option HandleOf } by { coded_option (the_row).coded },
}

impl Model for TreePointer {
    ghost also_owns = { λ p. held (ghosts.dealloc_token p.alloc) the_row p.at p.tree };
}

impl TreePointer {
    /// Null.
    pub(crate) fn null(alloc: Global) -> TreePointer
        ensures { result.tree ≡ None }
    {
        TreePointer {
            at: std::ptr::null_mut(),
            alloc,
        }
    }

    /// Returns the pointer of a handle.
    fn of(loose: RawBox<Handle, Global>) -> TreePointer
        ensures { result.tree ≡ Some loose.value }
    {
        let RawBox { at, alloc } = loose;
        TreePointer {
            at: at as *mut u8,
            alloc,
        }
    }

    /// Returns the handle to which it leads.
    fn into_loose(self) -> Option<RawBox<Handle, Global>>
        ensures { option_map (λ loose. loose.value) result ≡ self.tree }
    {
        let TreePointer { at, alloc } = self;
        if at.is_null() {
            return None;
        }
        Some(RawBox {
            at: at as *mut Handle,
            alloc,
        })
    }

    /// Returns the pointer of a handle in a box.
    pub(crate) fn to(handle: Box<Handle>) -> TreePointer
        ensures { result.tree ≡ Some handle.value }
    {
        TreePointer::of(RawBox::from_box(handle))
    }

    /// Puts a pointer in the place of this one, which is not looked at.
    pub(crate) fn put(&mut self, pointer: TreePointer)
        ensures { self.new ≡ pointer }
    {
        std::mem::forget(std::mem::replace(self, pointer));
    }
}

impl Drop for TreePointer {
    fn drop(self) {
        match self.into_loose() {
            None => {}
            Some(loose) => drop(loose.into_box()),
        }
    }
}

// A handle may go to another thread, and so may its pointer (`laws`).
unsafe impl Send for TreePointer {}
