//! A cache of idle links.
ghost use Rattle.std.specs.Prelude.{◌≡◌, ◌+◌, ◌<◌, ◌≤◌, ℕ, List, [], ◌∷◌, ◌++◌, length, drop, slice_index_or, IfOk, MatchOption};
ghost use Rattle.mx_turn.specs.Idle.{kept, left, HasNone, TakesNewest};
ghost use Rattle.mx_request.specs.Endpoint.{HostAndPort};

use mx_request::Endpoint;
use mx_types::OutOfMemory;
use std::alloc::Global;
use std::marker::Model;

/// Idle links, each with the endpoint that it is connected to, at most as many as the limit. Contracts see a list in
/// the order of put, and the limit.
#[derive(Drop)]
pub struct IdleCache<L> {
    links: Vec<(Endpoint, L)>,
    limit: usize,
}

impl<L> Model for IdleCache<L> {
    ghost use Rattle.std.specs.Prelude.{◌≤◌, vec_len, vec_capacity};
    ghost use Rattle.mx_turn.specs.Idle.{Idle};

    ghost Value = { Idle L };

    ghost view = { λ c. record { links = c.links.items; limit = c.limit } };

    ghost invariant = { λ c. (vec_len c.links ≤ c.limit) × (c.limit ≤ vec_capacity c.links) };
}

impl<L: Drop> IdleCache<L> {
    /// No link yet, and room for `limit` of them. Returns `OutOfMemory` where memory for these is refused.
    pub fn with_limit(alloc: Global, limit: usize) -> Result<IdleCache<L>, OutOfMemory>
        ensures { IfOk result (λ cache. cache ≡ record { links = []; limit = limit }) }
    {
        Ok(IdleCache {
            links: Vec::with_capacity(alloc, limit)?,
            limit,
        })
    }

    /// How many links there are.
    pub fn len(&self) -> usize
        ensures count { result ≡ length self.now.links }
        ensures within { length self.now.links ≤ self.now.limit }
    {
        self.links.len()
    }

    // rule idle-newest-first
    // rule idle-limit-0
    /// Puts in a link of this endpoint. Gives back the link that was put first, where the cache was full; with a
    /// limit of 0 that is `link` itself.
    pub fn put(&mut self, endpoint: Endpoint, link: L) -> Option<L>
        ensures links { self.new ≡ record self.old { links = kept self.old.limit (self.old.links ++ (endpoint, link) ∷ []) } }
        ensures left { result ≡ left self.old.limit (self.old.links ++ (endpoint, link) ∷ []) }
    {
        if self.limit == 0 {
            return Some(link);
        }
        let oldest = if self.links.len() == self.limit {
            Some(self.links.remove(0).1)
        } else {
            None
        };
        match self.links.push((endpoint, link)) {
            Ok(()) => oldest,
            Err(_) => unreachable!(),
        }
    }

    // rule idle-newest-first
    /// Takes the link of this endpoint that was put last, if there is one.
    pub fn take(&mut self, endpoint: &Endpoint) -> Option<L>
        ensures links { MatchOption result (HasNone endpoint.now self.old.links) (λ link. TakesNewest endpoint.now self.old.links link self.new.links) }
        ensures none { result ≡ None → self.new ≡ self.old }
        ensures limit { self.new.limit ≡ self.old.limit }
    {
        let newest = self.newest(endpoint)?;
        Some(self.links.remove(newest).1)
    }

    /// Drops all links.
    pub fn clear(&mut self)
        ensures { self.new ≡ record self.old { links = [] } }
    {
        self.links.clear();
    }

    // The place of the endpoint's newest link.
    fn newest(&self, endpoint: &Endpoint) -> Option<usize>
        ensures { MatchOption result (HasNone endpoint.now self.now.links) (λ place. (place < length self.now.links)
            × ((d : HostAndPort × L) → (slice_index_or self.now.links place d).0 ≡ endpoint.now)
            × HasNone endpoint.now (drop (place + 1) self.now.links)) }
    {
        let mut place = self.links.len();
        while place > 0 {
            place -= 1;
            if self.links[place].0 == *endpoint {
                return Some(place);
            }
        }
        None
    }
}
