//! A box taken apart, so that its pointer can be given away and come back.
#![tactic(auto)]

ghost use Rattle.std.specs.Prelude.{◌≡◌};
ghost use Rattle.std_alloc.specs.Box.Ownership.{box_owns};

use std::alloc::Allocator;
use std::marker::Model;

/// The pointer and the allocator of a box. It owns what the box owned, and it isn't dropped by itself.
pub struct RawBox<T, A: Allocator> {
    pub pointer: *mut T,
    pub alloc: A,
    pub ghost content: { T },
}

impl<T, A: Allocator> Model for RawBox<T, A> {
    ghost also_owns = { λ b. box_owns (A.dealloc_token b.alloc) T.row b.pointer b.content };
}

impl<T: Drop, A: Allocator> RawBox<T, A> {
    /// A box, taken apart.
    pub fn from_box(boxed: Box<T, A>) -> RawBox<T, A>
        ensures { result.content ≡ boxed.value }
    {
        let (pointer, alloc) = Box::into_raw_with_allocator(boxed);
        RawBox { pointer, alloc }
    }

    /// The box again.
    pub fn into_box(self) -> Box<T, A>
        ensures { result.value ≡ self.content }
    {
        let RawBox { pointer, alloc } = self;
        unsafe { Box::from_raw(alloc, pointer) }
    }
}
