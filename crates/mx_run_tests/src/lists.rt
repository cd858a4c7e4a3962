//! Lists of URLs.
use crate::escapes::SeenText;
use crate::fakes::{PieceReader, Stalling};
use crate::tally::add_all;
use mx_save_rules::{Entry, ListError, MOST_LINE, UrlList};
use std::alloc::{AllocError, Global};
use std::io::Read;

/// The most calls that are made for the entries of a list.
const MOST_CALLS: usize = 100_000;

/// Writes an entry on a line of its own.
fn tell(text: &mut String, entry: &Entry) -> Result<(), AllocError> {
    match entry {
        Entry::Url(url) => add_all(text, &["url ", url.as_str(), "\n"]),
        Entry::NotText(_) => text.push_str("not text\n"),
        Entry::TooLong(front) if front.len() == MOST_LINE + 1 => text.push_str("too long\n"),
        Entry::TooLong(_) => text.push_str("too long, but cut\n"),
    }
}

/// Writes the end of a list, if the answer is one.
fn tell_next<R: Read + Drop>(text: &mut String, list: &mut UrlList<R>) -> Result<bool, AllocError> {
    match list.next() {
        Ok(Some(entry)) => {
            tell(text, &entry)?;
            return Ok(true);
        }
        Ok(None) => text.push_str("end\n")?,
        Err(ListError::Unread) => text.push_str("unread\n")?,
        Err(ListError::OutOfMemory) => text.push_str("no memory\n")?,
        Err(ListError::NotYet) | Err(ListError::Unended) => return Ok(true),
    }
    Ok(false)
}

/// Writes all that a list has.
fn tell_all<R: Read + Drop>(text: &mut String, list: &mut UrlList<R>) -> Result<(), AllocError> {
    for _ in 0..MOST_CALLS {
        if !tell_next(text, list)? {
            return Ok(());
        }
    }
    Ok(())
}

/// How the bytes of a list are read: in pieces of at most so many, by so many reads, and perhaps nothing by every other one.
type Way = (usize, usize, bool);

/// Writes what the list of these bytes has.
fn tell_list(alloc: Global, text: &mut String, bytes: &[u8], way: Way) -> Result<(), AllocError> {
    let (most, reads, is_late) = way;
    let reader = Stalling {
        pieces: PieceReader { bytes, most, reads },
        is_late,
        stalls: false,
    };
    let mut list = UrlList::new(alloc, reader);
    let told = tell_all(text, &mut list);
    drop(list);
    told
}

/// Tells what the list of these bytes has.
fn told(alloc: Global, bytes: &[u8], way: Way) -> Result<String, AllocError> {
    let mut text = String::new(alloc);
    tell_list(alloc, &mut text, bytes, way)?;
    Ok(text)
}

fn seen(alloc: Global, told: &str) -> Result<String, AllocError> {
    let mut seen = SeenText::new(alloc);
    seen.see('>', told.as_bytes())?;
    Ok(seen.text)
}

const WHOLE: Way = (4096, 1_000_000, false);

static OTHERS: [Way; 4] = [
    (1, 1_000_000, false),
    (3, 1_000_000, false),
    (7, 1_000_000, true),
    (4096, 1_000_000, true),
];

/// What is said where something else was told of a list that was read so.
fn difference(alloc: Global, way: Way, other: &str, whole: &str) -> Result<String, AllocError> {
    let (most, _, is_late) = way;
    let late = if is_late { "late, " } else { "" };
    format!(in alloc; "> {late}by {most} bytes\n{other}> by 4096 bytes\n{whole}")
}

/// The same, or nothing where the same was told.
fn compare(
    alloc: Global,
    bytes: &[u8],
    way: Way,
    whole: &str,
) -> Result<Option<String>, AllocError> {
    let other = told(alloc, bytes, way)?;
    let differs = if other.as_str() == whole {
        Ok(None)
    } else {
        difference(alloc, way, other.as_str(), whole).map(Some)
    };
    drop(other);
    differs
}

/// What is seen of a list of which this was told.
fn see_whole(alloc: Global, bytes: &[u8], whole: &str) -> Result<String, AllocError> {
    for way in &OTHERS {
        if let Some(difference) = compare(alloc, bytes, *way, whole)? {
            return Ok(difference);
        }
    }
    seen(alloc, whole)
}

// rule list-entries
/// What is seen of a list, which has to be the same read by 4096 bytes, by threes and byte by byte, and where every other read finds nothing.
pub(crate) fn see_list(alloc: Global, bytes: &[u8]) -> Result<String, AllocError> {
    let whole = told(alloc, bytes, WHOLE)?;
    let seen = see_whole(alloc, bytes, whole.as_str());
    drop(whole);
    seen
}

/// What is seen of a list that is read by fours, where so many reads are made and the next one fails.
pub(crate) fn see_failing_list(
    alloc: Global,
    reads: &str,
    bytes: &[u8],
) -> Result<String, AllocError> {
    let Ok(reads) = reads.parse::<usize>() else {
        return String::from_str(alloc, "> no number of reads\n");
    };
    let told = told(alloc, bytes, (4, reads, false))?;
    let seen = seen(alloc, told.as_str());
    drop(told);
    seen
}
