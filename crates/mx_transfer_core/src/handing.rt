//! What becomes of the content of a transfer.
ghost use Rattle.std.specs.Prelude.{◌≡◌, [], ◌++◌, None};
ghost use Rattle.mx_chain.specs.Outcomes.{EndsAs};
ghost use Rattle.mx_transfer_core.specs.Deliveries.{IsHandedTo};

use mx_chain::{ChainEnd, Outcome};
use mx_sink::{Delivery, Window};
use std::alloc::Global;
use std::mem;

/// Hands the delivery what is there, where it has room.
pub(crate) fn hand_on<D: Delivery>(delivery: &mut D, rest: &mut Window)
    requires { D.flows delivery.old ≡ None → rest.old.items ≡ [] }
    ensures all { D.handed delivery.new ++ rest.new.items ≡ D.handed delivery.old ++ rest.old.items }
    ensures rest { D.flows delivery.new ≡ None → rest.new.items ≡ [] }
    ensures flows { D.flows delivery.new ≡ D.flows delivery.old }
{
    if delivery.make_room() {
        delivery.take(rest);
    }
}

/// What a transfer ends with. Where the delivery was handed all, the memory of the content stays.
pub(crate) fn end_of<D: Delivery>(
    alloc: Global,
    end: ChainEnd,
    delivery: Option<D>,
    rest: &mut Window,
) -> Outcome<D>
    requires { IsHandedTo D.flows D.handed end.last.limit end.content delivery rest.old.items }
    ensures { EndsAs end result }
{
    let Some(delivery) = delivery else {
        unreachable!()
    };
    // proof: which failures there are
    let _failure = delivery.fault();
    let mut left = Window::new(alloc);
    if !rest.is_empty() {
        mem::swap(&mut left, rest);
    }
    end.deliver(delivery, left)
}
