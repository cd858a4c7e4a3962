//! Which transfer is looked at next.
ghost use Rattle.std.specs.Prelude.{◌≡◌, ℕ, Option, ◌+◌, ◌<◌, ◌↔◌, length, All, IsTrue, MatchOption};
ghost use Rattle.mx_exchange.specs.Exchanges.{IsDue};
ghost use Rattle.mx_worker_turns.specs.Picks.{Bounds, IsBounded, TakesDue, Picks, PicksDue};

use crate::queue::Queue;
use mx_gate::Gate;
use mx_link::Link;
use mx_sink::Delivery;
use mx_turn::{Claimed, Right, Tied};

/// Whether the deadline has come.
pub(crate) fn is_due(deadline: Option<u64>, now: u64) -> bool
    ensures { IsTrue result ↔ IsDue deadline now }
{
    match deadline {
        Some(deadline) => deadline <= now,
        None => false,
    }
}

// The earlier of two deadlines, of which there may be none.
fn earlier(one: Option<u64>, other: Option<u64>) -> Option<u64>
    ensures one { (deadline : Option ℕ) → Bounds one deadline → Bounds result deadline }
    ensures other { Bounds result other }
{
    match (one, other) {
        (Some(one), Some(other)) => Some(one.min(other)),
        (Some(one), None) => Some(one),
        (None, other) => other,
    }
}

/// A deadline before which none of these comes.
pub(crate) fn least_deadline<L: Link, C: Right, D: Delivery, E: Tied>(
    todo: &Queue<Claimed<L, C, D>, E>,
) -> Option<u64>
    ensures { All (IsBounded result) todo.now.items }
{
    let mut least = None;
    for place in 0..todo.len() {
        least = earlier(least, todo.get(place).deadline());
    }
    least
}

// rule turn-order
// Takes one that is due, while there is one. None is due before `least`, a lower bound of all deadlines, which is updated where it had come
// and none was due.
fn take_due<L: Link, C: Right, D: Delivery, E: Tied>(
    todo: &mut Queue<Claimed<L, C, D>, E>,
    least: &mut Option<u64>,
    now: u64,
) -> Option<Claimed<L, C, D>>
    requires bound { All (IsBounded least.old) todo.old.items }
    ensures bound { All (IsBounded least.new) todo.new.items }
    ensures taken { TakesDue now todo.old.items result todo.new.items }
    ensures own { MatchOption result (todo.new ≡ todo.old) (λ h. h.of ≡ todo.old.of) }
    ensures of { todo.new.of ≡ todo.old.of }
{
    if !is_due(*least, now) {
        return None;
    }
    for place in 0..todo.len() {
        if todo.get(place).is_late(now) {
            return todo.take(place);
        }
    }
    *least = least_deadline(todo);
    None
}

// rule turn-clock
// Takes one that is due. Where none is, it reads the clock, unless `is_new` says that none was polled since the last reading; then one may
// be due.
fn take_due_by<L: Link, C: Right, D: Delivery, E: Tied, G: Gate>(
    gate: &mut G,
    todo: &mut Queue<Claimed<L, C, D>, E>,
    least: &mut Option<u64>,
    now: &mut u64,
    is_new: bool,
) -> Option<Claimed<L, C, D>>
    requires bound { All (IsBounded least.old) todo.old.items }
    ensures bound { All (IsBounded least.new) todo.new.items }
    ensures taken { PicksDue now.old now.new is_new todo.old.items result todo.new.items (G.said gate.old) (G.said gate.new) }
    ensures own { MatchOption result (todo.new ≡ todo.old) (λ h. h.of ≡ todo.old.of) }
    ensures of { todo.new.of ≡ todo.old.of }
{
    if let Some(held) = take_due(todo, least, *now) {
        return Some(held);
    }
    if is_new {
        return None;
    }
    *now = gate.now();
    take_due(todo, least, *now)
}

// rule turn-order
/// Takes the one that is looked at next: one that is due, while there is one, else the first. The moment is the one at which it is.
pub(crate) fn take_next<L: Link, C: Right, D: Delivery, E: Tied, G: Gate>(
    gate: &mut G,
    todo: &mut Queue<Claimed<L, C, D>, E>,
    least: &mut Option<u64>,
    now: &mut u64,
    is_new: bool,
) -> Option<Claimed<L, C, D>>
    requires bound { All (IsBounded least.old) todo.old.items }
    requires some { 0 < length todo.old.items }
    ensures bound { All (IsBounded least.new) todo.new.items }
    ensures taken { MatchOption result ⊥ (λ h. Picks now.old now.new is_new todo.old.items h todo.new.items (G.said gate.old) (G.said gate.new)) }
    ensures own { MatchOption result ⊥ (λ h. h.of ≡ todo.old.of) }
    ensures of { todo.new.of ≡ todo.old.of }
    ensures count { MatchOption result ⊥ (λ _. length todo.new.items + 1 ≡ length todo.old.items) }
{
    if let Some(held) = take_due_by(gate, todo, least, now, is_new) {
        return Some(held);
    }
    todo.pop()
}
