//! Content on its way to a delivery.
ghost use Rattle.std.specs.Prelude.{◌≡◌, ◌+◌, ◌≤◌, ◌↔◌, IsTrue, [], length, take};

use std::alloc::Global;
use std::marker::Model;
use std::mem;

/// The content that came since it was last handed on, in order. Behind it there may be memory that is written already, so that a read can
/// put what follows at once to its place.
#[derive(Drop)]
pub struct Window {
    alloc: Global,
    bytes: Vec<u8>,
    // How many bytes at the front are content.
    len: usize,
}

impl Model for Window {
    ghost use Rattle.std.specs.Prelude.{◌≤◌, length, take};
    ghost use Rattle.mx_sink.specs.Windows.{WindowValue};

    ghost Value = { WindowValue };

    ghost view = { λ w. record { items = take w.len w.bytes.items; memory = length w.bytes.items } };

    ghost invariant = { λ w. w.len ≤ length w.bytes.items };
}

impl Window {
    /// One without content. It takes no memory.
    pub fn new(alloc: Global) -> Window
        ensures { result.items ≡ [] }
    {
        Window {
            alloc,
            bytes: Vec::new(alloc),
            len: 0,
        }
    }

    /// Whether it has no content.
    pub fn is_empty(&self) -> bool
        ensures { IsTrue result ↔ (self.now.items ≡ []) }
    {
        self.len == 0
    }

    /// How many bytes of content it has.
    pub fn len(&self) -> usize
        ensures { result ≡ length self.now.items }
    {
        self.len
    }

    /// The content.
    pub fn as_slice(&self) -> &[u8]
        ensures { result.now ≡ self.now.items }
    {
        &self.bytes[..self.len]
    }

    /// Drops the content behind so many bytes, and keeps the memory.
    pub fn truncate(&mut self, len: usize)
        ensures { self.new ≡ record self.old { items = take len self.old.items } }
    {
        if len < self.len {
            self.len = len;
        }
    }

    /// Drops the content, and keeps the memory.
    pub fn clear(&mut self)
        ensures { self.new ≡ record self.old { items = [] } }
    {
        self.len = 0;
    }

    /// The content, by move.
    pub fn into_bytes(self) -> Vec<u8>
        ensures { result.items ≡ self.items }
    {
        let Window {
            alloc: _,
            mut bytes,
            len,
        } = self;
        bytes.truncate(len);
        bytes
    }

    /// Sees that behind the content there are so many bytes of memory. False where memory for them is refused.
    pub fn reserve(&mut self, count: usize) -> bool
        ensures same { self.new.items ≡ self.old.items }
        ensures room { IsTrue result → length self.new.items + count ≤ self.new.memory }
    {
        match self.len.checked_add(count) {
            Some(end) => end <= self.bytes.len() || self.bytes.resize(end, 0).is_ok(),
            None => false,
        }
    }

    /// Takes out its memory, and how many bytes of that are content, and leaves neither. [`put_back`](Window::put_back) puts it back.
    pub fn take_out(&mut self) -> (Vec<u8>, usize)
        ensures empty { (self.new.items ≡ []) × (self.new.memory ≡ 0) }
        ensures content { take result.1 result.0.items ≡ self.old.items }
        ensures within { result.1 ≤ length result.0.items }
        ensures memory { length result.0.items ≡ self.old.memory }
    {
        let bytes = mem::replace(&mut self.bytes, Vec::new(self.alloc));
        (bytes, mem::replace(&mut self.len, 0))
    }

    /// Puts memory in the place of its own, of which so many bytes are content.
    pub fn put_back(&mut self, bytes: Vec<u8>, len: usize)
        requires { len ≤ length bytes.items }
        ensures { self.new.items ≡ take len bytes.items }
    {
        self.bytes = bytes;
        self.len = len;
    }
}
