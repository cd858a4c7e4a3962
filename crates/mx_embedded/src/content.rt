//! What an outcome has as bytes, read in pieces.
ghost use Rattle.std.specs.Prelude.{◌≡◌, ◌≤◌, ◌-◌, ◌++◌, drop, length, min, option_copied, take};
ghost use Rattle.mx_chain.specs.Outcomes.{wire_at};
ghost use Rattle.mx_embedded.specs.Contents.{AreHeadsCopied, IsCopied, IsCopiedFrom, body_of, request_at};

use crate::copies::{copy_from, copy_some};
use mx_transfer_core::Outcome;
use std::marker::Model;

/// An outcome that was read, and the part of its body at which the last read ended: its number, and the length of what is before it.
pub struct Ended {
    outcome: Outcome,
    part: usize,
    begins: u64,
}

// Written out, and not derived: a crate that drops one cites its proof.
impl Drop for Ended {
    fn drop(self) {
        let Ended {
            outcome,
            part: _,
            begins: _,
        } = self;
        drop(outcome);
    }
}

impl Model for Ended {
    ghost use Rattle.std.specs.Prelude.{◌≡◌, ◌≤◌, length};
    ghost use Rattle.mx_chain.specs.Outcomes.{OutcomeValue};
    ghost use Rattle.mx_embedded.specs.Contents.{body_before};

    ghost Value = { OutcomeValue };

    ghost view = { λ e. e.outcome };

    ghost invariant = { λ e. record {
      within : e.part ≤ length e.outcome.parts;
      begins : e.begins ≡ length (body_before e.outcome e.part);
    } };
}

// Copies a part of the body from a place of it on behind what was copied before. The answer is how many bytes.
fn copy_behind(part: &[u8], skip: u64, out: &mut [u8], done: usize) -> usize
    requires { done ≤ length out.old }
    ensures count { result ≡ min (length part.now - skip) (length out.old - done) }
    ensures copied { out.new ≡ take done out.old ++ (take result (drop skip part.now) ++ drop result (drop done out.old)) }
{
    copy_from(part, skip, &mut out[done..])
}

impl Ended {
    /// The outcome, of whose body nothing was read.
    pub fn of(outcome: Outcome) -> Ended
        ensures { result ≡ outcome }
    {
        Ended {
            outcome,
            part: 0,
            begins: 0,
        }
    }

    /// The outcome.
    pub fn outcome(&self) -> &Outcome
        ensures { result.now ≡ self.now }
    {
        &self.outcome
    }

    // The request of a hop.
    fn request_at(&self, hop: usize) -> Option<&[u8]>
        ensures { option_copied result ≡ request_at self.now hop }
    {
        match self.outcome.hop_request(hop) {
            Some(request) => Some(request.bytes()),
            None => None,
        }
    }

    /// Copies the request of a hop, counted from 0, its head and its body, from that place on, as much as there is room for. The answer is how
    /// many bytes: none behind its end, and where there is no such hop.
    pub fn read_request(&self, hop: usize, from: u64, out: &mut [u8]) -> usize
        ensures { IsCopiedFrom (request_at self.now hop) from out.old out.new result }
    {
        copy_some(self.request_at(hop), from, out)
    }

    /// Copies the heads of the response of a hop, likewise: its interim heads and its final head (RFC 9112, section 2.1), and no bytes where
    /// it has no final head.
    pub fn read_heads(&self, hop: usize, from: u64, out: &mut [u8]) -> usize
        ensures { AreHeadsCopied self.now hop from out.old out.new result }
    {
        copy_some(self.outcome.hop_heads(hop), from, out)
    }

    /// Copies all bytes of the response of a hop, likewise, where memory has them.
    pub fn read_wire(&self, hop: usize, from: u64, out: &mut [u8]) -> usize
        ensures { IsCopiedFrom (wire_at self.now hop) from out.old out.new result }
    {
        copy_some(self.outcome.hop_wire(hop), from, out)
    }

    /// Copies the body from that place on, as much as there is room for. The answer is how many bytes: none behind its end, and where the
    /// code isn't 0. A read that goes on where the one before ended takes no longer for the length of what came before.
    pub fn read_body(&mut self, from: u64, out: &mut [u8]) -> usize
        ensures copied { IsCopied (body_of self.old) from out.old out.new result }
        ensures same { self.new ≡ self.old }
    {
        // proof: the body's length fits
        let _len = self.outcome.body_len();
        if from < self.begins {
            self.part = 0;
            self.begins = 0;
        }
        let mut skip = from - self.begins;
        let mut done = 0;
        for _ in self.part..self.outcome.part_count() {
            if done == out.len() {
                return done;
            }
            let Some(part) = self.outcome.part(self.part) else {
                unreachable!()
            };
            let len = part.len() as u64;
            let copied = copy_behind(part, skip, out, done);
            done += copied;
            if (copied as u64) < len.saturating_sub(skip) {
                return done;
            }
            skip = skip.saturating_sub(len);
            self.begins += len;
            self.part += 1;
        }
        done
    }
}
