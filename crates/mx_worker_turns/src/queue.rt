//! Items in order.
ghost use Rattle.std.specs.Prelude.{◌≡◌, ◌<◌, ◌∷◌, ◌++◌, [], length, get_or, IsTrue, ◌↔◌, IfOk, MatchOption};
ghost use Rattle.std.specs.List.{remove};
ghost use Rattle.mx_types.specs.Limits.{most_transfers};

use mx_turn::Tied;
use mx_types::{MOST_TRANSFERS, OutOfMemory};
use std::alloc::Global;
use std::collections::VecDeque;
use std::marker::Model;
use std::snapshot::Snapshot;

/// Items in order, all of one engine, with room for [`MOST_TRANSFERS`]. Contracts see the items, and of which list of ties they are.
#[derive(Drop)]
pub(crate) struct Queue<T: Tied + Drop, E: Tied> {
    of: Snapshot<E>,
    items: VecDeque<T>,
}

impl<T: Tied + Drop, E: Tied> Model for Queue<T, E> {
    ghost use Rattle.std.specs.Prelude.{◌≡◌, ◌≤◌, All};
    ghost use Rattle.std.specs.VecDeque.{deque_capacity};
    ghost use Rattle.mx_types.specs.Limits.{most_transfers};
    ghost use Rattle.mx_worker_turns.specs.WorkerSteps.{QueueView};

    ghost Value = { QueueView T };

    ghost view = { λ q. record { items = q.items.items; of = E.of q.of.value } };

    ghost invariant = { λ q. (most_transfers ≤ deque_capacity q.items) × All (λ t. T.of t ≡ E.of q.of.value) q.items.items };
}

impl<T: Tied + Drop, E: Tied> Queue<T, E> {
    /// No items yet, and room for as many as there may be.
    pub fn new(alloc: Global, engine: &E) -> Result<Queue<T, E>, OutOfMemory>
        ensures { IfOk result (λ queue. queue ≡ record { items = []; of = E.of engine.now }) }
    {
        Ok(Queue {
            of: Snapshot::of(engine),
            items: VecDeque::with_capacity(alloc, MOST_TRANSFERS)?,
        })
    }

    /// Two queues, of two kinds of items. It is generic over both, so that a queue that is dropped is dropped as one value.
    pub fn pair<U: Tied + Drop>(
        alloc: Global,
        engine: &E,
    ) -> Result<(Queue<T, E>, Queue<U, E>), OutOfMemory>
        ensures one { IfOk result (λ r. r.0 ≡ record { items = []; of = E.of engine.now }) }
        ensures other { IfOk result (λ r. r.1 ≡ record { items = []; of = E.of engine.now }) }
    {
        let one = Queue::new(alloc, engine)?;
        match Queue::new(alloc, engine) {
            Ok(other) => Ok((one, other)),
            Err(error) => {
                drop(one);
                Err(error)
            }
        }
    }

    pub fn len(&self) -> usize
        ensures { result ≡ length self.now.items }
    {
        self.items.len()
    }

    pub fn is_empty(&self) -> bool
        ensures { IsTrue result ↔ (self.now.items ≡ []) }
    {
        self.items.is_empty()
    }

    /// The item in its place.
    pub fn get(&self, place: usize) -> &T
        requires { place < length self.now.items }
        ensures { result.now ≡ get_or self.now.items place result.now }
    {
        &self.items[place]
    }

    /// Adds an item after the others.
    #[tactic(auto, using(crate::proofs::Queues::all_more))]
    pub fn push(&mut self, item: T)
        requires room { length self.old.items < most_transfers }
        requires of { T.of item ≡ self.old.of }
        ensures { self.new ≡ record self.old { items = self.old.items ++ item ∷ [] } }
    {
        self.items.push_back_reserved(item);
    }

    /// Takes the first item.
    #[tactic(auto, using(crate::proofs::Queues::all_rest))]
    pub fn pop(&mut self) -> Option<T>
        ensures taken { MatchOption result (self.old.items ≡ []) (λ t. self.old.items ≡ t ∷ self.new.items) }
        ensures rest { MatchOption result (self.new.items ≡ []) (λ t. T.of t ≡ self.old.of) }
        ensures of { self.new.of ≡ self.old.of }
    {
        let Some(item) = self.items.pop_front() else {
            return None;
        };
        Some(item)
    }

    /// Takes the item in its place.
    #[tactic(auto, using(crate::proofs::Queues::all_but))]
    pub fn take(&mut self, place: usize) -> Option<T>
        requires { place < length self.old.items }
        ensures taken { MatchOption result ⊥ (λ t. (t ≡ get_or self.old.items place t) × (T.of t ≡ self.old.of)) }
        ensures rest { self.new.items ≡ remove self.old.items place }
        ensures of { self.new.of ≡ self.old.of }
    {
        let Some(item) = self.items.remove(place) else {
            unreachable!()
        };
        Some(item)
    }
}
