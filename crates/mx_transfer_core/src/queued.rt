//! A transfer that waits for a worker.
ghost use Rattle.std.specs.Prelude.{◌≡◌, ◌++◌, ℕ, List, [], None, true, false, IfOk, IfErr};
ghost use Rattle.mx_transfer_core.specs.Deliveries.{begun_for};

use crate::cores::TransferCore;
use mx_link::Link;
use mx_request::Request;
use mx_sink::{Delivery, Held};
use mx_types::Work;
use std::alloc::{AllocFailed, Global};
use std::marker::Model;

/// A transfer that has not ended, as it waits for a worker. It is boxed, since it goes through the multi handle and from list to list of a
/// worker. Contracts see the transfer.
pub struct Queued<L: Link, D: Delivery = Held> {
    transfer: Box<TransferCore<L, D>>,
}

// Written out, and not derived: a crate that drops queued work cites its proof.
impl<L: Link, D: Delivery> Drop for Queued<L, D> {
    fn drop(self) {
        let Queued { transfer } = self;
        drop(transfer);
    }
}

impl<L: Link, D: Delivery> Model for Queued<L, D> {
    ghost use Rattle.std.specs.Prelude.{◌≡◌, None};
    ghost use Rattle.mx_chain.specs.Chains.{ChainState};

    ghost Value = { ChainState L };

    ghost view = { λ q. q.transfer.value };

    ghost invariant = { λ q. q.transfer.value.code ≡ None };
}

impl<L: Link, D: Delivery> Work for Queued<L, D> {
    ghost use Rattle.mx_request.specs.Request.{request_origin};

    ghost origin = { λ q. request_origin q.request };
}

impl<L: Link> Queued<L, Held> {
    /// A transfer of the request, which has not started, and keeps all bytes of the hops that it follows. What its polls grow comes from
    /// `alloc`, as the transfer itself does. Where that memory is refused, the request comes back.
    pub fn new(alloc: Global, request: Request) -> Result<Queued<L, Held>, AllocFailed<Request>>
        ensures request { IfOk result (λ q. q.request ≡ request) }
        ensures whole { IfOk result (λ q. q.heads_alone ≡ false) }
        ensures unstarted { IfOk result (λ q. (q.now.is_started ≡ false) × (q.code ≡ None) × (q.now.deadline ≡ None)) }
        ensures refused { IfErr result (λ e. e.value ≡ request) }
    {
        match Queued::boxed(alloc, TransferCore::new(alloc, request)) {
            Ok(queued) => Ok(queued),
            Err(refused) => Err(AllocFailed {
                value: refused.value.0,
            }),
        }
    }

    /// The same, which keeps of each hop that it follows its heads alone: the body is freed before the next hop begins.
    pub fn keeping_heads(
        alloc: Global,
        request: Request,
    ) -> Result<Queued<L, Held>, AllocFailed<Request>>
        ensures request { IfOk result (λ q. q.request ≡ request) }
        ensures heads { IfOk result (λ q. q.heads_alone ≡ true) }
        ensures unstarted { IfOk result (λ q. (q.now.is_started ≡ false) × (q.code ≡ None) × (q.now.deadline ≡ None)) }
        ensures refused { IfErr result (λ e. e.value ≡ request) }
    {
        match Queued::boxed(alloc, TransferCore::keeping_heads(alloc, request)) {
            Ok(queued) => Ok(queued),
            Err(refused) => Err(AllocFailed {
                value: refused.value.0,
            }),
        }
    }
}

impl<L: Link, D: Delivery> Queued<L, D> {
    /// A transfer of the request, which has not started, and keeps of each hop that it follows its heads alone. Its response is held, or its
    /// content is handed to the delivery, which has none yet, as it comes. Where memory for it is refused, both come back.
    pub fn delivering(
        alloc: Global,
        request: Request,
        delivery: D,
    ) -> Result<Queued<L, D>, AllocFailed<(Request, D)>>
        requires { D.handed delivery ≡ [] }
        ensures chain { IfOk result (λ q. q ≡ begun_for (D.flows delivery) request) }
        ensures request { IfOk result (λ q. q.request ≡ request) }
        ensures refused { IfErr result (λ e. e.value.0 ≡ request) }
        ensures back { IfErr result (λ e. D.handed e.value.1 ≡ []) }
    {
        Queued::boxed(alloc, TransferCore::delivering(alloc, request, delivery))
    }

    // The transfer, which has not ended, in a box; or its request and its delivery.
    fn boxed(
        alloc: Global,
        transfer: TransferCore<L, D>,
    ) -> Result<Queued<L, D>, AllocFailed<(Request, D)>>
        requires { transfer.code ≡ None }
        ensures same { IfOk result (λ q. q ≡ transfer) }
        ensures refused { IfErr result (λ e. e.value.0 ≡ transfer.request) }
        ensures back { IfErr result (λ e. (rest : List ℕ) × (transfer.content ≡ D.handed e.value.1 ++ rest)) }
    {
        match Box::new(alloc, transfer) {
            Ok(transfer) => Ok(Queued { transfer }),
            Err(refused) => Err(AllocFailed {
                value: refused.value.into_parts(),
            }),
        }
    }

    /// The request, by move. A link that serves it is dropped, and its delivery.
    pub fn into_request(self) -> Request
        ensures { result ≡ self.request }
    {
        let (request, delivery) = self.into_parts();
        drop(delivery);
        request
    }

    /// The request and the delivery, by move. A link that serves the request is dropped.
    pub fn into_parts(self) -> (Request, D)
        ensures request { result.0 ≡ self.request }
        ensures handed { (rest : List ℕ) × (self.content ≡ D.handed result.1 ++ rest) }
    {
        let Queued { transfer } = self;
        Box::into_inner(transfer).into_parts()
    }

    /// A transfer that a worker has claimed and polled, to be given back. It has not ended.
    pub fn of(transfer: Box<TransferCore<L, D>>) -> Queued<L, D>
        requires { transfer.value.code ≡ None }
        ensures { result ≡ transfer.value }
    {
        Queued { transfer }
    }

    /// The transfer, by move, for a worker that polls it itself. It has not ended.
    pub fn into_transfer(self) -> Box<TransferCore<L, D>>
        ensures same { result.value ≡ self }
        ensures running { result.value.code ≡ None }
    {
        let Queued { transfer: claimed } = self;
        claimed
    }
}
