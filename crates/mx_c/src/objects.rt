//! What a handle leads to.
ghost use Rattle.std.specs.Prelude.{◌≡◌, Some, option_copied, option_map};
ghost use Rattle.std.specs.Option.{option_and_then};
ghost use Rattle.mx_embedded.specs.Contents.{IsCopiedFrom, body_of};
ghost use Rattle.mx_c.specs.Answers.{ended_of, part_at};
ghost use Rattle.mx_c.specs.declared.objects.Object.TheVariants as object;

use mx_embedded::{Ended, HostLink, SocketMulti, name_link};
use std::mem;

/// A multi handle, or an outcome. There is no outcome in one whose memory was asked for before its message was read.
pub enum Object {
    Multi(SocketMulti),
    Outcome(Option<Ended>),
}

// Written out, and not derived, so that what drops one cites its proof.
impl Drop for Object {
    fn drop(self) {
        // proof: the type of the links
        name_link::<HostLink>();
        match self {
            Object::Multi(multi) => drop(multi),
            Object::Outcome(ended) => drop(ended),
        }
    }
}

impl Object {
    /// The outcome that it is, if it is one.
    pub(crate) fn ended(&self) -> Option<&Ended>
        ensures { option_copied result ≡ ended_of self.now }
    {
        // proof: the type of the links
        name_link::<HostLink>();
        match self {
            Object::Outcome(Some(ended)) => Some(ended),
            Object::Outcome(None) => None,
            Object::Multi(_) => None,
        }
    }

    /// A part of the body of the outcome that it is, if it is one: counted from 0.
    pub(crate) fn part(&self, part: u32) -> Option<&[u8]>
        ensures { option_copied result ≡ option_and_then (λ o. part_at o part) (ended_of self.now) }
    {
        // proof: the type of the links
        name_link::<HostLink>();
        match self {
            Object::Outcome(Some(ended)) => ended.outcome().part(part as usize),
            Object::Outcome(None) => None,
            Object::Multi(_) => None,
        }
    }

    /// Copies of the body of the outcome that it is, if it is one.
    pub(crate) fn read_body(&mut self, from: u64, out: &mut [u8]) -> usize
        ensures { IsCopiedFrom (option_map body_of (ended_of self.old)) from out.old out.new result }
    {
        // proof: the type of the links
        name_link::<HostLink>();
        match self {
            Object::Outcome(Some(ended)) => ended.read_body(from, out),
            Object::Outcome(None) => 0,
            Object::Multi(_) => 0,
        }
    }

    /// Has it be an outcome.
    pub(crate) fn put(&mut self, ended: Ended)
        ensures { self.new ≡ object.Outcome (Some ended) }
    {
        // proof: the type of the links
        name_link::<HostLink>();
        let before = mem::replace(self, Object::Outcome(Some(ended)));
        drop(before);
    }
}
