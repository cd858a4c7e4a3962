//! What calls were answered.

use crate::texts::ReplyText;
use mx_types::{Call, OutOfMemory, Reply, Who};
use std::alloc::Global;

/// A call that was answered: whose it was, its number among that maker's calls, how many events its maker had then seen,
/// whether one of them is its own, and the answer's text.
#[derive(Drop)]
pub struct Entry {
    pub who: Who,
    pub number: usize,
    pub cut: u32,
    pub makes_event: bool,
    pub call: Call,
    pub said: String,
}

/// The text of an answer.
pub fn text_of(alloc: Global, reply: &Reply) -> Result<String, OutOfMemory> {
    let said = ReplyText(reply);
    Ok(format!(in alloc; "{said}")?)
}

/// Why a maker stops: memory was refused, a call was answered `WrongSeat` or None, or another answer came than should.
#[derive(Clone, Copy)]
pub enum Stop {
    Memory,
    NoAnswer,
    Wrong,
}

impl From<OutOfMemory> for Stop {
    fn from(_refused: OutOfMemory) -> Stop {
        Stop::Memory
    }
}

/// A maker, and what its calls were answered, one after another.
#[derive(Drop)]
pub struct Notes {
    pub alloc: Global,
    pub who: Who,
    pub entries: Vec<Entry>,
}

impl Notes {
    fn keep(&mut self, call: Call, reply: &Reply, cut: u32) -> Result<(), OutOfMemory> {
        let makes_event = matches!(
            reply,
            Reply::Added(_)
                | Reply::Removed
                | Reply::Changed
                | Reply::Message { .. }
                | Reply::Ok
                | Reply::Recorded
        );
        self.entries.push(Entry {
            who: self.who,
            number: self.entries.len(),
            cut,
            makes_event,
            call,
            said: text_of(self.alloc, reply)?,
        })?;
        Ok(())
    }

    /// Whether this is the answer of the last call, and so many events were then seen, or any number.
    pub fn last_is(&self, said: &str, cut: Option<u32>) -> bool {
        let Some(entry) = self.entries.last() else {
            return false;
        };
        let is_cut = match cut {
            Some(cut) => cut == entry.cut,
            None => true,
        };
        is_cut && entry.said.as_str() == said
    }

    /// Notes what the next call was answered, and how many events its seat has then seen; or says why the maker stops.
    pub fn note(&mut self, call: Call, reply: Option<Reply>, cut: u32) -> Result<(), Stop> {
        match reply {
            Some(Reply::OutOfMemory) => Err(Stop::Memory),
            Some(reply) => Ok(self.keep(call, &reply, cut)?),
            None => Err(Stop::NoAnswer),
        }
    }
}
