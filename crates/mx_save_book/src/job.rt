//! The URLs that have no end yet.
ghost use Rattle.std.specs.Prelude.{◌≡◌, option_copied};
ghost use Rattle.mx_save_book.specs.Jobs.{is_taken, job_of};
ghost use Rattle.mx_save_book.specs.Books.{awaits, is_unadded};

use mx_folder::FileName;
use mx_types::Ticket;

/// A URL that has no end yet.
#[derive(Drop)]
pub struct Job {
    /// Its place among the URLs of the run, from 0 on.
    pub place: u64,
    /// Its text, in UTF-8.
    pub url: Vec<u8>,
    /// The name of its file.
    pub name: FileName,
    /// Which try it is, from 1 on.
    pub tries: u32,
}

/// The slot of a URL that has no end yet. Its number is the handle of the URL's transfer.
#[derive(Drop)]
pub enum Slot {
    /// No URL.
    Free,
    /// No transfer of it is added.
    Waiting(Job),
    /// The part of this number was made for its body, and no transfer of it is added yet.
    Open(Job, u64),
    /// The transfer of this addition is, which writes the part of this number.
    Added(Job, Ticket, u64),
}

impl Slot {
    /// Its URL.
    pub fn job(&self) -> Option<&Job>
        ensures { option_copied result ≡ job_of self.now }
    {
        match self {
            Slot::Free => None,
            Slot::Waiting(job) | Slot::Open(job, _) | Slot::Added(job, _, _) => Some(job),
        }
    }

    /// Whether the addition of this ticket is that of its URL.
    pub(crate) fn awaits(&self, ticket: Ticket) -> bool
        ensures { result ≡ awaits ticket self.now }
    {
        match self {
            Slot::Added(_, own, _) => *own == ticket,
            _ => false,
        }
    }

    /// Whether it has a URL.
    pub(crate) fn is_taken(&self) -> bool
        ensures { result ≡ is_taken self.now }
    {
        !matches!(self, Slot::Free)
    }

    /// Whether no transfer of its URL is added.
    pub(crate) fn is_unadded(&self) -> bool
        ensures { result ≡ is_unadded self.now }
    {
        !matches!(self, Slot::Added(_, _, _))
    }

    /// Its URL, by move.
    pub fn into_job(self) -> Option<Job>
        ensures { result ≡ job_of self }
    {
        match self {
            Slot::Free => None,
            Slot::Waiting(job) | Slot::Open(job, _) | Slot::Added(job, _, _) => Some(job),
        }
    }
}
