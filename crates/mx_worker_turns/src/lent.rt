//! What a worker lends its transfers.
ghost use Rattle.std.specs.Prelude.{◌≡◌};

use mx_chain::ReadBuffer;
use mx_link::Link;
use mx_sink::{Delivery, Window};
use mx_transfer_core::TransferCore;
use std::alloc::Global;
use std::marker::Model;

/// What a worker lends a transfer for a poll: the buffer of its reads, and the memory of the content that it hands on, which is empty
/// between polls. So that memory is a worker's, however many transfers it holds.
#[derive(Drop)]
pub(crate) struct Lent {
    buffer: ReadBuffer,
    window: Window,
}

impl Model for Lent {
    ghost use Rattle.std.specs.Prelude.{◌≡◌, []};

    ghost Value = { Unit {0} };

    ghost view = { λ _. tt };

    ghost invariant = { λ l. l.window.items ≡ [] };
}

impl Lent {
    pub fn new(alloc: Global) -> Lent {
        Lent {
            buffer: ReadBuffer::new(alloc),
            window: Window::new(alloc),
        }
    }

    /// Gives them to a transfer before a poll, and takes them back after it.
    pub fn swap<L: Link, D: Delivery>(&mut self, transfer: &mut TransferCore<L, D>)
        ensures { transfer.new ≡ transfer.old }
    {
        transfer.swap_buffer(&mut self.buffer);
        transfer.swap_window(&mut self.window);
    }
}
