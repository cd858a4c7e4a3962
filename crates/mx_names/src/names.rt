//! What is known of hosts.
ghost use Rattle.std.specs.Prelude.{◌≡◌, ◌<◌, ◌≤◌, [], ◌&&◌, not, Some, string_bytes, vec_len, vec_capacity, IfOk, OnErr, MatchBool, count_by, if◌then◌else◌};
ghost use Rattle.std.specs.List.{filter, find, position};
ghost use Rattle.std.specs.Option.{option_map};
ghost use Rattle.mx_names.specs.Names.{IsTable, IsTrueOf, SpellsNone, Learns, HasNone, told, may_begin, begun, is_of, is_open, is_under_way, stays};

use crate::answer::HostAnswer;
use crate::asked::Asked;
use crate::entry::Entry;
use crate::finding::Finding;
use crate::lookup::Lookup;
use mx_types::OutOfMemory;
use std::alloc::Global;
use std::marker::{Model, PhantomData};

// rule name-kept-60-seconds
/// How long an answer is kept, in milliseconds.
pub const KEPT_MS: u64 = 60_000;

// rule name-lookup-count
/// How many lookups may be under way.
pub const MOST_LOOKUPS: usize = 64;

/// What is known of hosts: which lookups are under way, and the results of the others. Contracts see a list, with one record for a host.
/// Moments are milliseconds on the caller's clock.
#[derive(Drop)]
pub struct Names<L: Lookup> {
    // Each call goes through all records: a run has hundreds of hosts, not millions.
    entries: Vec<Entry>,
    by: PhantomData<L>,
}

impl<L: Lookup> Model for Names<L> {
    ghost use Rattle.std.specs.Prelude.{List};
    ghost use Rattle.mx_names.specs.Names.{HostState, IsTable};

    ghost Value = { List HostState };

    ghost view = { λ n. n.entries.items };

    ghost invariant = { λ n. IsTable L.gives n.entries.items };
}

// How many lookups are under way.
fn count(entries: &[Entry]) -> usize
    ensures { result ≡ count_by is_under_way entries.now }
{
    entries.iter().filter(|e| e.is_under_way()).count()
}

// Forgets that a lookup of the host is under way.
fn drop_from(entries: &mut Vec<Entry>, host: &str)
    ensures { entries.new.items ≡ filter (λ state. not (is_of host.now state && is_under_way state)) entries.old.items }
{
    entries.retain(|e| !(e.is_of(host) && e.is_under_way()));
}

// Drops what is no longer kept when the lookup of the host begins.
fn let_go(entries: &mut Vec<Entry>, host: &str, now: u64)
    ensures stay { entries.new.items ≡ filter (stays host.now now) entries.old.items }
    ensures room { vec_len entries.new ≤ vec_len entries.old }
    ensures capacity { vec_capacity entries.new ≡ vec_capacity entries.old }
{
    entries.retain(|e| e.stays(host, now));
}

// Puts in the host, whose lookup has begun.
fn add_to(entries: &mut Vec<Entry>, host: String, now: u64) -> Result<(), OutOfMemory>
    ensures begun { IfOk result (λ _. entries.new.items ≡ begun (string_bytes host) now entries.old.items) }
    ensures refused { OnErr result (entries.new.items ≡ entries.old.items) }
{
    entries.reserve(1)?;
    let_go(entries, host.as_str(), now);
    entries.push_reserved(Entry { host, learnt: None });
    Ok(())
}

impl<L: Lookup> Names<L> {
    /// Nothing is known yet.
    pub fn new(alloc: Global) -> Names<L>
        ensures { result ≡ [] }
    {
        Names {
            entries: Vec::new(alloc),
            by: PhantomData,
        }
    }

    /// How many lookups are under way.
    pub fn under_way(&self) -> usize
        ensures count { result ≡ count_by is_under_way self.now }
        ensures table { IsTable L.gives self.now }
    {
        count(self.entries.as_slice())
    }

    // What is known now, to one who asks since a moment.
    pub(crate) fn asked(&self, since: u64, now: u64) -> Asked
        ensures { result ≡ record { since = since; now = now; known = self.now } }
    {
        Asked::of(&self.entries, since, now)
    }

    // What is known of the host.
    fn entry_of(&self, host: &str) -> Option<&Entry>
        ensures { option_map (λ e. e.now) result ≡ find (is_of host.now) self.now }
    {
        self.entries.iter().find(|e| e.is_of(host))
    }

    // rule name-own-answer
    /// What is known of the host, to one who asks since a moment: addresses that were learnt less than 60 seconds ago, or the
    /// failure of a lookup, if that was learnt since.
    pub fn ask(
        &self,
        alloc: Global,
        host: &str,
        since: u64,
        now: u64,
    ) -> Result<HostAnswer, OutOfMemory>
        ensures told { IfOk result (λ answer. answer ≡ told since now (find (is_of host.now) self.now)) }
        ensures true_of { IfOk result (IsTrueOf L.gives host.now) }
    {
        // proof: what holds of every table
        let _ = &self.entries;
        let answer = self.told(alloc, host, since, now)?;
        Ok(answer)
    }

    fn told(
        &self,
        alloc: Global,
        host: &str,
        since: u64,
        now: u64,
    ) -> Result<HostAnswer, OutOfMemory>
        ensures { IfOk result (λ answer. answer ≡ told since now (find (is_of host.now) self.now)) }
    {
        match self.entry_of(host) {
            Some(entry) => entry.told(alloc, since, now),
            None => Ok(HostAnswer::NotYet),
        }
    }

    // rule name-one-lookup
    // Whether no lookup of the host is under way, and nothing is known of it.
    fn is_open(&self, host: &str, since: u64, now: u64) -> bool
        ensures { result ≡ is_open since now (find (is_of host.now) self.now) }
    {
        match self.entry_of(host) {
            Some(entry) => entry.is_over(since, now),
            None => true,
        }
    }

    // rule name-lookup-count
    // Whether a lookup of the host begins where it is asked for.
    fn may_begin(&self, host: &str, since: u64, now: u64) -> bool
        ensures { result ≡ may_begin host.now since now self.now }
    {
        self.is_open(host, since, now) && self.under_way() < MOST_LOOKUPS
    }

    // Puts in the host, whose lookup has begun.
    fn add(&mut self, host: String, now: u64) -> Result<(), OutOfMemory>
        requires few { count_by is_under_way self.old < MOST_LOOKUPS }
        requires name { SpellsNone (string_bytes host) }
        ensures begun { IfOk result (λ _. self.new ≡ begun (string_bytes host) now self.old) }
        ensures refused { OnErr result (self.new ≡ self.old) }
    {
        add_to(&mut self.entries, host, now)?;
        Ok(())
    }

    /// Begins a lookup of the host, and says whether it does: where none of it is under way, nothing is known to one who asks since that
    /// moment, and fewer than [`MOST_LOOKUPS`] others are under way. On `true` the caller has to look the host up, and to hand in the
    /// result by [`Names::learn`]. Hosts that are no longer kept are dropped.
    ///
    /// A host that spells an address isn't to be looked up. The one error is that memory was refused; nothing has changed then.
    pub fn begin(
        &mut self,
        alloc: Global,
        host: &str,
        since: u64,
        now: u64,
    ) -> Result<bool, OutOfMemory>
        requires { SpellsNone host.now }
        ensures begins { IfOk result (λ begins. begins ≡ may_begin host.now since now self.old) }
        ensures begun { IfOk result (λ begins. self.new ≡ if begins then begun host.now now self.old else self.old) }
        ensures refused { OnErr result (self.new ≡ self.old) }
    {
        if !self.may_begin(host, since, now) {
            return Ok(false);
        }
        let host = String::from_str(alloc, host)?;
        self.add(host, now)?;
        Ok(true)
    }

    // The index of the host, whose lookup is under way.
    fn place_of(&self, host: &str) -> Option<usize>
        ensures { result ≡ position (λ state. is_of host.now state && is_under_way state) self.now }
    {
        self.entries
            .iter()
            .position(|e| e.is_of(host) && e.is_under_way())
    }

    /// Learns at this moment the result of a lookup, and says whether one of that host was under way.
    pub fn learn(&mut self, finding: Finding<L>, now: u64) -> bool
        ensures { MatchBool result (Learns finding.host finding.outcome now self.old self.new) ((self.new ≡ self.old) × HasNone finding.host self.old) }
    {
        match self.place_of(finding.host()) {
            Some(place) => {
                self.learn_at(place, finding, now);
                true
            }
            None => false,
        }
    }

    // Learns the result of the lookup that is under way at this index.
    fn learn_at(&mut self, place: usize, finding: Finding<L>, now: u64)
        requires { position (λ state. is_of finding.host state && is_under_way state) self.old ≡ Some place }
        ensures { Learns finding.host finding.outcome now self.old self.new }
    {
        let outcome = finding.into_outcome();
        self.entries[place].learn(outcome, now);
    }

    /// Forgets that a lookup of the host is under way: it couldn't be begun.
    pub fn forget(&mut self, host: &str)
        ensures { self.new ≡ filter (λ state. not (is_of host.now state && is_under_way state)) self.old }
    {
        drop_from(&mut self.entries, host);
    }
}
