//! The hops that a transfer followed: all of their bytes, or their heads alone.
ghost use Rattle.std.specs.Prelude.{◌≡◌, ◌<◌, ◌↔◌, ◌-◌, ◌++◌, ◌∷◌, [], false, None, IsSome, IfSome, IfErr, is_ok, length, slice_get, option_map, option_copied, if◌then◌else◌};
ghost use Rattle.mx_body.specs.Decision.{HasHeads};

use mx_body::heads_len;
use mx_exchange::Hop;
use mx_request::Request;
use std::alloc::{AllocFailed, Global};
use std::marker::Model;
use std::mem;
use std::snapshot::Snapshot;

/// What is left of a hop that was followed: its request, its status and its heads. Contracts see the hop, with all of its bytes.
#[derive(Drop)]
pub(crate) struct HopHeads {
    request: Request,
    status: u16,
    heads: Vec<u8>,
    hop: Snapshot<Hop>,
}

impl Model for HopHeads {
    ghost use Rattle.std.specs.Prelude.{◌≡◌};
    ghost use Rattle.mx_body.specs.Decision.{HasHeads};
    ghost use Rattle.mx_exchange.specs.Exchanges.{HopValue};

    ghost Value = { HopValue };

    ghost view = { λ h. h.hop.value };

    ghost invariant = { λ h. record {
      request : h.request ≡ h.hop.value.request;
      status : h.status ≡ h.hop.value.status;
      heads : HasHeads h.hop.value.wire h.heads.items;
    } };
}

impl HopHeads {
    // rule redirect-heads
    /// What is left of that hop. Its body is freed.
    fn of(hop: Hop) -> HopHeads
        ensures { result ≡ hop }
    {
        let ended = Snapshot::of(&hop);
        let status = hop.status();
        let count = heads_len(hop.kept());
        let (request, mut heads) = hop.into_parts();
        heads.truncate(count);
        heads.shrink_to_fit();
        HopHeads {
            request,
            status,
            heads,
            hop: ended,
        }
    }

    fn request(&self) -> &Request
        ensures { result.now ≡ self.now.request }
    {
        &self.request
    }

    fn status(&self) -> u16
        ensures { result ≡ self.now.status }
    {
        self.status
    }

    fn heads(&self) -> &[u8]
        ensures { HasHeads self.now.wire result.now }
    {
        self.heads.as_slice()
    }

    fn into_request(self) -> Request
        ensures { result ≡ self.request }
    {
        self.request
    }
}

/// The heads of a hop's response.
pub(crate) fn heads_of(hop: &Hop) -> &[u8]
    ensures { HasHeads hop.now.wire result.now }
{
    let kept = hop.kept();
    &kept[..heads_len(kept)]
}

/// Adds what is left of a hop. Where memory for its place is refused, the hop comes back whole.
fn push_heads(hops: &mut Vec<HopHeads>, hop: Hop) -> Result<(), AllocFailed<Hop>>
    ensures items { hops.new.items ≡ if is_ok result then hops.old.items ++ hop ∷ [] else hops.old.items }
    ensures value_returned { IfErr result (λ e. e.value ≡ hop) }
{
    match hops.reserve(1) {
        Err(_) => Err(AllocFailed { value: hop }),
        Ok(()) => match hops.push(HopHeads::of(hop)) {
            Ok(()) => Ok(()),
            Err(_) => unreachable!(),
        },
    }
}

/// What is kept of the hops.
#[derive(Drop)]
pub(crate) enum Kept {
    /// All of their bytes.
    Whole(Vec<Hop>),
    /// Their heads alone.
    Heads(Vec<HopHeads>),
}

/// The hops that a transfer followed, in their order.
#[derive(Drop)]
pub(crate) struct Hops {
    kept: Kept,
}

impl Model for Hops {
    ghost use Rattle.mx_chain.specs.Followed.{AreKept, FollowedHops, followed_of};

    ghost Value = { FollowedHops };

    ghost view = { λ h. followed_of h.kept };

    ghost invariant = { λ h. AreKept h.kept };
}

impl Hops {
    /// None yet. It takes no memory.
    pub fn new(alloc: Global, heads_alone: bool) -> Hops
        ensures { result ≡ record { all = []; heads_alone = heads_alone } }
    {
        if heads_alone {
            return Hops {
                kept: Kept::Heads(Vec::new(alloc)),
            };
        }
        Hops {
            kept: Kept::Whole(Vec::new(alloc)),
        }
    }

    /// Whether their heads alone are kept.
    pub fn has_heads_alone(&self) -> bool
        ensures { result ≡ self.now.heads_alone }
    {
        matches!(&self.kept, Kept::Heads(_))
    }

    /// How many there are.
    pub fn len(&self) -> usize
        ensures count { result ≡ length self.now.all }
        ensures small { result < 18446744073709551615 }
    {
        match &self.kept {
            Kept::Whole(hops) => hops.len(),
            Kept::Heads(hops) => hops.len(),
        }
    }

    /// The request of a hop, counted from 0; `None` past the last.
    pub fn request(&self, i: usize) -> Option<&Request>
        ensures { option_copied result ≡ option_map (λ o. o.request) (slice_get self.now.all i) }
    {
        match &self.kept {
            Kept::Whole(hops) => Some(hops.get(i)?.request()),
            Kept::Heads(hops) => Some(hops.get(i)?.request()),
        }
    }

    /// The request of the last hop, if there is one.
    pub fn last_request(&self) -> Option<&Request>
        ensures { option_copied result ≡ option_map (λ o. o.request) (slice_get self.now.all (length self.now.all - 1)) }
    {
        self.request(self.len().saturating_sub(1))
    }

    /// The status of a hop, counted from 0; `None` past the last.
    pub fn status(&self, i: usize) -> Option<u16>
        ensures { result ≡ option_map (λ o. o.status) (slice_get self.now.all i) }
    {
        match &self.kept {
            Kept::Whole(hops) => Some(hops.get(i)?.status()),
            Kept::Heads(hops) => Some(hops.get(i)?.status()),
        }
    }

    /// The bytes of the response of a hop, counted from 0; `None` past the last, and where heads alone are kept.
    pub fn wire(&self, i: usize) -> Option<&[u8]>
        ensures { option_copied result ≡ if self.now.heads_alone then None else option_map (λ o. o.wire) (slice_get self.now.all i) }
    {
        match &self.kept {
            Kept::Whole(hops) => Some(hops.get(i)?.kept()),
            Kept::Heads(_) => None,
        }
    }

    /// The heads of the response of a hop, counted from 0; `None` past the last.
    pub fn heads(&self, i: usize) -> Option<&[u8]>
        ensures count { IsSome result ↔ (i < length self.now.all) }
        ensures heads { IfSome result (λ heads. IfSome (slice_get self.now.all i) (λ h. HasHeads h.wire heads.now)) }
    {
        match &self.kept {
            Kept::Whole(hops) => Some(heads_of(hops.get(i)?)),
            Kept::Heads(hops) => Some(hops.get(i)?.heads()),
        }
    }

    /// Adds a hop. Its response is held, unless heads alone are kept. Where memory for it is refused, it comes back whole.
    pub fn push(&mut self, hop: Hop) -> Result<(), AllocFailed<Hop>>
        requires { self.old.heads_alone ≡ false → hop.limit ≡ None }
        ensures items { self.new.all ≡ if is_ok result then self.old.all ++ hop ∷ [] else self.old.all }
        ensures same { self.new.heads_alone ≡ self.old.heads_alone }
        ensures value_returned { IfErr result (λ e. e.value ≡ hop) }
    {
        match &mut self.kept {
            Kept::Whole(hops) => hops.push(hop),
            Kept::Heads(hops) => push_heads(hops, hop),
        }
    }

    /// All of them, by move. None are left.
    pub fn take(&mut self, alloc: Global) -> Hops
        ensures taken { result ≡ self.old }
        ensures none { self.new ≡ record self.old { all = [] } }
    {
        let none = Hops::new(alloc, self.has_heads_alone());
        mem::replace(self, none)
    }

    /// The request of the first hop, if there is one, by move.
    pub fn into_first(self) -> Option<Request>
        ensures { result ≡ option_map (λ o. o.request) (slice_get self.all 0) }
    {
        match self.kept {
            Kept::Whole(mut hops) => {
                if hops.is_empty() {
                    return None;
                }
                Some(hops.swap_remove(0).into_request())
            }
            Kept::Heads(mut hops) => {
                if hops.is_empty() {
                    return None;
                }
                Some(hops.swap_remove(0).into_request())
            }
        }
    }
}
