//! The URLs of a run: those of the command line, and then those of a list.
ghost use Rattle.std.specs.Prelude.{◌≡◌, ◌≢◌, ◌≤◌, IfOk, length};
ghost use Rattle.mx_save_rules.specs.Entries.{told};
ghost use Rattle.mx_save_urls.specs.Texts.{bytes_of};
ghost use Rattle.mx_save_urls.specs.declared.feed.Ahead.TheVariants as ahead;

use mx_run_io::Stop;
use mx_save_rules::{Entry, ListError, UrlList};
use std::alloc::Global;
use std::io::Read;

/// How the URLs that are left go on.
#[derive(Clone, Copy)]
pub enum Ahead {
    /// One is at hand.
    Url,
    /// None is: the list has nothing now.
    NotYet,
    /// None is: what was read of the list says nothing yet, and it may have more.
    Unended,
    /// None is left.
    End,
}

/// The URLs that are still to be read: those of the command line, and then those of a list, which is read as the work goes on. The next one
/// of the list may be at hand already.
#[derive(Drop)]
pub struct Feed<'a, R> {
    alloc: Global,
    urls: &'a [&'a str],
    next: usize,
    ahead: Option<Vec<u8>>,
    list: Option<Box<UrlList<R>>>,
    ghost within: { next ≤ length urls.now },
}

// The bytes of an entry.
fn bytes_of(entry: Entry) -> Vec<u8>
    ensures { result.items ≡ bytes_of (told entry) }
{
    match entry {
        Entry::Url(text) => text.into_bytes(),
        Entry::NotText(bytes) => bytes,
        Entry::TooLong(bytes) => bytes,
    }
}

// How the URLs go on where the list gave none, or why it isn't read on.
fn without(error: ListError) -> Result<Ahead, Stop>
    ensures end { IfOk result (λ how. how ≢ ahead.End) }
    ensures url { IfOk result (λ how. how ≢ ahead.Url) }
{
    match error {
        ListError::Unread => Err(Stop::Unread),
        ListError::OutOfMemory => Err(Stop::OutOfMemory),
        ListError::NotYet => Ok(Ahead::NotYet),
        ListError::Unended => Ok(Ahead::Unended),
    }
}

impl<'a, R: Read + Drop> Feed<'a, R> {
    ghost use Rattle.std.specs.Prelude.{IfOk, IsSome, None, OnErr, map, option_map, ◌++◌};
    ghost use Rattle.mx_save_urls.specs.Feeds.{left, list_left, Gives, HasUrl, IsUsedUp, Keeps};

    /// The URLs, of which none was read yet.
    pub fn new(alloc: Global, urls: &'a [&'a str], list: Option<Box<UrlList<R>>>) -> Feed<'a, R>
        ensures { left R.remaining result ≡ option_map (λ more. map (λ u. u.now) urls.now ++ more) (list_left R.remaining list) }
    {
        Feed {
            alloc,
            urls,
            next: 0,
            ahead: None,
            list,
        }
    }

    /// How many URLs are left, where that is known: with a list it isn't.
    pub fn rest(&self) -> Option<u64> {
        match self.list {
            Some(_) => None,
            None => Some((self.urls.len() - self.next) as u64),
        }
    }

    // Reads the list up to its next URL, where none is at hand.
    fn read_list(&mut self) -> Result<Ahead, Stop>
        requires none { (self.old.ahead ≡ None) × (self.old.next ≡ length self.old.urls.now) }
        ensures kept { Keeps (left R.remaining self.old) (left R.remaining self.new) }
        ensures end { IfOk result (λ how. how ≡ ahead.End → IsUsedUp (left R.remaining self.old)) }
        ensures url { IfOk result (λ how. how ≡ ahead.Url → HasUrl self.new) }
    {
        let Some(list) = &mut self.list else {
            return Ok(Ahead::End);
        };
        match list.next() {
            Ok(Some(entry)) => {
                self.ahead = Some(bytes_of(entry));
                Ok(Ahead::Url)
            }
            Ok(None) => Ok(Ahead::End),
            Err(error) => without(error),
        }
    }

    /// Has the next URL at hand, where it can be had without waiting for the list: the same URLs are left.
    ///
    /// An error is that the list couldn't be read, or `OutOfMemory`.
    pub fn look_ahead(&mut self) -> Result<Ahead, Stop>
        ensures kept { Keeps (left R.remaining self.old) (left R.remaining self.new) }
        ensures end { IfOk result (λ how. how ≡ ahead.End → IsUsedUp (left R.remaining self.old)) }
        ensures url { IfOk result (λ how. how ≡ ahead.Url → HasUrl self.new) }
    {
        if self.next < self.urls.len() || self.ahead.is_some() {
            return Ok(Ahead::Url);
        }
        self.read_list()
    }

    /// The next URL, or None where none is at hand: after `look_ahead` has answered `Url` one is.
    ///
    /// An error is `OutOfMemory`: the same URLs are left.
    pub fn next(&mut self) -> Result<Option<Vec<u8>>, Stop>
        ensures next { IfOk result (λ said. Gives (left R.remaining self.old) said (λ v. v.items) (left R.remaining self.new)) }
        ensures some { HasUrl self.old → IfOk result IsSome }
        ensures kept { OnErr result (Keeps (left R.remaining self.old) (left R.remaining self.new)) }
    {
        if self.next < self.urls.len() {
            let url = Vec::from_slice(self.alloc, self.urls[self.next].as_bytes())?;
            self.next += 1;
            return Ok(Some(url));
        }
        Ok(self.ahead.take())
    }
}
