//! What is known of one host.
ghost use Rattle.std.specs.Prelude.{◌≡◌, Some, IfOk};
ghost use Rattle.mx_names.specs.Names.{is_of, is_under_way, is_over, told_by, stays};

use crate::addresses::Addresses;
use crate::answer::HostAnswer;
use crate::names::KEPT_MS;
use mx_types::{Code, OutOfMemory};
use std::alloc::Global;
use std::marker::Model;

/// The result of a lookup, and the moment at which it was learnt, in milliseconds.
#[derive(Drop)]
pub struct Learnt {
    pub outcome: Result<Addresses, Code>,
    pub moment: u64,
}

// What is known of a host. While its lookup is under way nothing is learnt.
#[derive(Drop)]
pub(crate) struct Entry {
    pub host: String,
    pub learnt: Option<Learnt>,
}

impl Model for Entry {
    ghost use Rattle.std.specs.Prelude.{string_bytes};
    ghost use Rattle.mx_names.specs.Names.{HostState};

    ghost Value = { HostState };

    ghost view = { λ e. record { host = string_bytes e.host; learnt = e.learnt } };
}

impl Learnt {
    ghost use Rattle.mx_names.specs.Names.{is_young, tells, told_by};

    // rule name-kept-60-seconds
    // Whether it is still kept at this moment.
    pub(crate) fn is_young(&self, now: u64) -> bool
        ensures { result ≡ is_young now self.now }
    {
        now.saturating_sub(self.moment) < KEPT_MS
    }

    // Its answer to one who asks since a moment.
    pub(crate) fn told(
        &self,
        alloc: Global,
        since: u64,
        now: u64,
    ) -> Result<HostAnswer, OutOfMemory>
        ensures { IfOk result (λ answer. answer ≡ told_by since now (Some self.now)) }
    {
        if !self.tells(since, now) {
            return Ok(HostAnswer::NotYet);
        }
        match &self.outcome {
            Ok(addresses) => Ok(HostAnswer::Known(addresses.copy(alloc)?)),
            Err(code) => Ok(HostAnswer::Failed(*code)),
        }
    }

    // rule name-failures
    // Whether it is the answer to one who asks since this moment.
    pub(crate) fn tells(&self, since: u64, now: u64) -> bool
        ensures { result ≡ tells since now self.now }
    {
        self.is_young(now) && (self.outcome.is_ok() || since <= self.moment)
    }
}

impl Entry {
    // Whether it is of this host.
    pub fn is_of(&self, host: &str) -> bool
        ensures { result ≡ is_of host.now self.now }
    {
        self.host.as_str() == host
    }

    // Whether its lookup is under way.
    pub fn is_under_way(&self) -> bool
        ensures { result ≡ is_under_way self.now }
    {
        self.learnt.is_none()
    }

    // Learns the result of its lookup.
    pub fn learn(&mut self, outcome: Result<Addresses, Code>, moment: u64)
        ensures { self.new ≡ record { host = self.old.host; learnt = Some (record { outcome = outcome; moment = moment }) } }
    {
        self.learnt = Some(Learnt { outcome, moment });
    }

    // rule name-one-lookup
    // Whether its lookup isn't under way, and it has no answer for one who asks since that moment.
    pub fn is_over(&self, since: u64, now: u64) -> bool
        ensures { result ≡ is_over since now self.now.learnt }
    {
        match &self.learnt {
            Some(learnt) => !learnt.tells(since, now),
            None => false,
        }
    }

    // Its answer to one who asks since a moment.
    pub fn told(&self, alloc: Global, since: u64, now: u64) -> Result<HostAnswer, OutOfMemory>
        ensures { IfOk result (λ answer. answer ≡ told_by since now self.now.learnt) }
    {
        match &self.learnt {
            Some(learnt) => learnt.told(alloc, since, now),
            None => Ok(HostAnswer::NotYet),
        }
    }

    // Whether it stays where the lookup of this host begins.
    pub fn stays(&self, host: &str, now: u64) -> bool
        ensures { result ≡ stays host.now now self.now }
    {
        if self.is_of(host) {
            return false;
        }
        match &self.learnt {
            Some(learnt) => learnt.is_young(now),
            None => true,
        }
    }
}
