//! What C holds: one pointer.
ghost use Rattle.std.specs.Prelude.{◌≡◌};
ghost use Rattle.mx_c.specs.declared.objects.Object.{Object};

use crate::objects::Object;
use mx_embedded::{HostLink, name_link};
use mx_raw_box::RawBox;
use std::alloc::Global;
use std::marker::Model;

/// What a pointer of C's leads to, of which C knows nothing.
#[repr(C)]
pub struct Opaque {
    unused: u64,
}

/// A multi handle or an outcome that C holds: the pointer of its box. It isn't dropped by itself, so an export ends it or leaves it to C.
#[repr(C)]
pub struct Handle {
    pointer: *mut Opaque,
    alloc: Global,
    ghost content: { Object },
}

impl Model for Handle {
    ghost use Rattle.std.specs.contracts.impls.GlobalAllocator.TheImpl.{ghosts};
    ghost use Rattle.std_alloc.specs.Box.Ownership.{box_owns};
    ghost use Rattle.mx_c.specs.contracts.objects.Object.{the_row};

    ghost also_owns = { λ h. box_owns (ghosts.dealloc_token h.alloc) the_row h.pointer h.content };
}

impl Handle {
    fn of_raw_box(raw: RawBox<Object, Global>) -> Handle
        ensures { result.content ≡ raw.content }
    {
        // proof: the type of the links, which is read where a function names it; a proof by hand of a call would have to prove it
        if false {
            name_link::<HostLink>();
        }
        let RawBox { pointer, alloc } = raw;
        Handle {
            pointer: pointer as *mut Opaque,
            alloc,
        }
    }

    fn into_raw_box(self) -> RawBox<Object, Global>
        ensures { result.content ≡ self.content }
    {
        // proof: the type of the links, which is read where a function names it; a proof by hand of a call would have to prove it
        if false {
            name_link::<HostLink>();
        }
        let Handle { pointer, alloc } = self;
        RawBox {
            pointer: pointer as *mut Object,
            alloc,
        }
    }

    /// The handle of a box.
    pub(crate) fn of(object: Box<Object>) -> Handle
        ensures { result.content ≡ object.value }
    {
        // proof: the type of the links
        name_link::<HostLink>();
        Handle::of_raw_box(RawBox::from_box(object))
    }

    /// The box.
    pub(crate) fn into_box(self) -> Box<Object>
        ensures { result.value ≡ self.content }
    {
        // proof: the type of the links
        name_link::<HostLink>();
        self.into_raw_box().into_box()
    }

    /// The pointer alone. What it owns is left to whoever holds the pointer.
    pub(crate) fn into_raw(self) -> *mut Opaque {
        let Handle { pointer, alloc: _ } = self;
        pointer
    }
}

/// Leaves a box to C, which holds its handle already.
pub(crate) fn leave(object: Box<Object>) {
    // proof: the type of the links
    name_link::<HostLink>();
    let _pointer = Handle::of(object).into_raw();
}
