//! A list that is read as the work goes on.
ghost use Rattle.std.specs.Prelude.{◌≤◌, length};

use crate::entry::Entry;
use crate::open_line::OpenLine;
use std::alloc::{AllocError, Global};
use std::io::{Error, ErrorKind, Read};

/// How many bytes one read asks for.
const READ_SIZE: usize = 4096;

/// The most reads that one call makes.
const MOST_READS: u32 = 16;

/// Why there is no next entry of a list.
#[derive(Clone, Copy)]
pub enum ListError {
    /// A read failed, and each further one will.
    Unread,
    /// Memory for the line or the entry was refused. The next call begins where this one stopped.
    OutOfMemory,
    /// The reader has nothing now (`WouldBlock`). The next call reads on.
    NotYet,
    /// As many reads as one call makes ended no line that says something. The next call reads on.
    Unended,
}

impl From<AllocError> for ListError {
    fn from(_: AllocError) -> ListError {
        ListError::OutOfMemory
    }
}

/// How a list goes on after a read.
#[derive(Drop)]
enum AfterRead {
    /// What was read has no entry yet.
    More,
    /// The next entry, if there is one.
    Next(Option<Entry>),
}

/// A list of URLs over a reader. It holds what one read gave, and the line that is being read, of which it keeps `MOST_LINE + 1` bytes at
/// most.
#[derive(Drop)]
pub struct UrlList<R> {
    alloc: Global,
    reader: R,
    has_failed: bool,
    buffer: [u8; READ_SIZE],
    start: usize,
    end: usize,
    line: OpenLine,
    ghost within: { start ≤ end },
    ghost room: { end ≤ length buffer },
}

impl<R: Read + Drop> UrlList<R> {
    ghost use Rattle.std.specs.Prelude.{◌≡◌, ℕ, List, [], ◌++◌, option_map, IfOk, OnErr, IsNone, IfNone};
    ghost use Rattle.std.specs.Io.KnownBytes.{IsAtEnd};
    ghost use Rattle.mx_save_rules.specs.Entries.{entries_of};
    ghost use Rattle.mx_save_rules.specs.Left.{entries_after, held, then, entries_left, GivesNext, KeepsEntries, GoesOn};

    /// A list of which nothing was read. It takes no memory.
    pub fn new(alloc: Global, reader: R) -> UrlList<R>
        ensures { entries_left R.remaining result ≡ option_map entries_of (R.remaining reader) }
    {
        UrlList {
            alloc,
            reader,
            has_failed: false,
            buffer: [0; READ_SIZE],
            start: 0,
            end: 0,
            line: OpenLine::new(alloc),
        }
    }

    // Takes in bytes that were read, up to the end of a line that says something, or all of them.
    fn next_held(&mut self) -> Result<Option<Entry>, AllocError>
        ensures said { IfOk result (λ said. (rest : List ℕ)
            → entries_after self.old.line (held self.old ++ rest) ≡ then said (entries_after self.new.line (held self.new ++ rest))) }
        ensures kept { OnErr result ((rest : List ℕ)
            → entries_after self.old.line (held self.old ++ rest) ≡ entries_after self.new.line (held self.new ++ rest)) }
        ensures all { IfOk result (λ said. IfNone said (self.new.start ≡ self.new.end)) }
        ensures reader { self.new.reader ≡ self.old.reader }
    {
        while self.start < self.end {
            let byte = self.buffer[self.start];
            let said = self.line.take(self.alloc, byte)?;
            self.start += 1;
            match said {
                Some(entry) => return Ok(Some(entry)),
                None => {}
            }
        }
        Ok(None)
    }

    // What an error of the reader says, which fails the list for good, unless the reader has nothing now.
    fn fail(&mut self, error: &Error) -> ListError
        ensures { self.new ≡ record self.old { has_failed = self.new.has_failed } }
    {
        if error.kind() == ErrorKind::WouldBlock {
            return ListError::NotYet;
        }
        self.has_failed = true;
        ListError::Unread
    }

    // An interrupted read fails the list: the program installs no signal handlers.
    // Reads once, where all that was read before was taken in. The answer is how many bytes came.
    fn fill(&mut self) -> Result<usize, ListError>
        requires { self.old.start ≡ self.old.end }
        ensures kept { KeepsEntries (entries_left R.remaining self.old) (entries_left R.remaining self.new) }
        ensures ended { IfOk result (λ count. count ≡ 0 → IsAtEnd (R.remaining self.new.reader) × (held self.new ≡ [])) }
    {
        self.start = 0;
        self.end = 0;
        if self.has_failed {
            return Err(ListError::Unread);
        }
        match self.reader.read(&mut self.buffer) {
            Ok(count) => {
                self.end = count;
                Ok(count)
            }
            Err(error) => Err(self.fail(&error)),
        }
    }

    // Goes on by one read at most.
    fn advance(&mut self) -> Result<AfterRead, ListError>
        ensures next { IfOk result (λ after_read. GoesOn (entries_left R.remaining self.old) after_read (entries_left R.remaining self.new)) }
        ensures kept { OnErr result (KeepsEntries (entries_left R.remaining self.old) (entries_left R.remaining self.new)) }
    {
        match self.next_held()? {
            Some(entry) => return Ok(AfterRead::Next(Some(entry))),
            None => {}
        }
        let count = self.fill()?;
        if count == 0 {
            return Ok(AfterRead::Next(self.line.end(self.alloc)?));
        }
        Ok(AfterRead::More)
    }

    // rule list-entries
    /// The next entry, or `None` where the list is at its end: then each further call reads once more, since a terminal may go on.
    ///
    /// An error leaves the entries that are left as they were: `Unread` where a read failed, and then each further call answers so once
    /// what was read before is used up; `OutOfMemory` where there was no memory for the line or the entry; `NotYet` where the reader has
    /// nothing now; and `Unended` where 16 reads ended no line that says something. After these three the next call goes on where this one
    /// stopped.
    pub fn next(&mut self) -> Result<Option<Entry>, ListError>
        ensures next { IfOk result (λ said. GivesNext (entries_left R.remaining self.old) said (entries_left R.remaining self.new)) }
        ensures kept { OnErr result (KeepsEntries (entries_left R.remaining self.old) (entries_left R.remaining self.new)) }
    {
        for _ in 0..MOST_READS {
            match self.advance()? {
                AfterRead::More => {}
                AfterRead::Next(said) => return Ok(said),
            }
        }
        Err(ListError::Unended)
    }
}
