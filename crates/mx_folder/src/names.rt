//! Names of files and of parts.
ghost use Rattle.std.specs.Prelude.{◌≡◌, ◌<◌, take, map, ◌++◌, ◌∷◌, ◌↔◌, IsTrue, IfOk, OnOk};
ghost use Rattle.std.specs.String.{string_bytes};
ghost use Rattle.mx_folder.specs.Names.{kept, shown, unhidden, base_name, IsGiven, numbered, part_of};
ghost use Rattle.mx_folder.specs.Safe.{IsSafeName, IsPartName};

use crate::paths::{last_segment, path_of};
use mx_types::OutOfMemory;
use std::alloc::Global;
use std::marker::Model;

// rule file-name-size
// The most bytes of a name before its number: with a number it has 255 at most, which is what file systems take.
const MOST_LEN: usize = 234;

/// The name of a file in a folder: one segment of 1 to 255 bytes of visible ASCII, with no slash and no dot in front. Contracts see its
/// bytes.
#[derive(Drop)]
pub struct FileName {
    name: String,
}

impl Model for FileName {
    ghost use Rattle.std.specs.Prelude.{ℕ, List};
    ghost use Rattle.std.specs.String.{string_bytes};
    ghost use Rattle.mx_folder.specs.Safe.{IsSafeName};

    ghost Value = { List ℕ };

    ghost view = { λ n. string_bytes n.name };

    ghost invariant = { λ n. IsSafeName (string_bytes n.name) };
}

impl FileName {
    /// The name.
    pub fn as_str(&self) -> &str
        ensures { result.now ≡ self.now }
    {
        self.name.as_str()
    }

    /// Whether it is that name.
    pub fn is_same(&self, other: &FileName) -> bool
        ensures { IsTrue result ↔ (self.now ≡ other.now) }
    {
        self.name.as_str() == other.name.as_str()
    }

    /// What holds of every name of a file. It does nothing: a call gives its caller's proof the law.
    pub fn know(&self)
        ensures { IsSafeName self.now }
    {
        // proof: what holds of the name of a file
        let _ = &self.name;
    }
}

/// The name under which a body is written before it is whole: `.mxfetch-PROCESS-NUMBER.part`. Contracts see its bytes.
#[derive(Drop)]
pub struct PartName {
    name: String,
}

impl Model for PartName {
    ghost use Rattle.std.specs.Prelude.{ℕ, List};
    ghost use Rattle.std.specs.String.{string_bytes};
    ghost use Rattle.mx_folder.specs.Safe.{IsPartName};

    ghost Value = { List ℕ };

    ghost view = { λ n. string_bytes n.name };

    ghost invariant = { λ n. IsPartName (string_bytes n.name) };
}

impl PartName {
    /// The name.
    pub fn as_str(&self) -> &str
        ensures { result.now ≡ self.now }
    {
        self.name.as_str()
    }

    /// What holds of every name of a part. It does nothing: a call gives its caller's proof the law.
    pub fn know(&self)
        ensures { IsPartName self.now }
    {
        // proof: what holds of the name of a part
        let _ = &self.name;
    }
}

// A byte as it is in a name.
fn kept(b: u8) -> u8
    ensures value { result ≡ kept b }
    ensures ascii { result < 128 }
{
    if b > b' ' && b < 127 && b != b'#' && b != b'/' {
        b
    } else {
        b'_'
    }
}

// The first byte of a name, which is no dot.
fn shown(b: u8) -> u8
    ensures { result ≡ shown b }
{
    if b == b'.' { b'_' } else { b }
}

// Adds bytes, each as it is kept.
fn add_kept(name: &mut String, bytes: &[u8]) -> Result<(), OutOfMemory>
    ensures { OnOk result (string_bytes name.new ≡ string_bytes name.old ++ map kept bytes.now) }
{
    for b in bytes {
        name.push(char::from(kept(*b)))?;
    }
    Ok(())
}

// At most so many bytes, from the front.
fn front(bytes: &[u8], most: usize) -> &[u8]
    ensures { result.now ≡ take most bytes.now }
{
    &bytes[..bytes.len().min(most)]
}

// rule file-names-size
// The name of a segment. Its memory has no room to spare, since a run keeps it.
fn segment_name(alloc: Global, segment: &[u8]) -> Result<String, OutOfMemory>
    ensures { IfOk result (λ name. string_bytes name ≡ unhidden (map kept segment.now)) }
{
    let Some((first, rest)) = segment.split_first() else {
        return Ok(String::from_str(alloc, "index.html")?);
    };
    let mut name = String::with_capacity(alloc, segment.len())?;
    name.push(char::from(shown(kept(*first))))?;
    add_kept(&mut name, rest)?;
    Ok(name)
}

// rule file-base-name
// The name that a URL gives, without a number.
// It isn't percent-decoded, as with curl's -O: a decoded segment could have slashes and bytes of 0.
pub(crate) fn base_name(alloc: Global, url: &[u8]) -> Result<String, OutOfMemory>
    ensures { IfOk result (λ name. string_bytes name ≡ base_name url.now) }
{
    segment_name(alloc, front(last_segment(path_of(url)), MOST_LEN))
}

// A name with a number after it.
fn numbered(alloc: Global, base: &str, number: u64) -> Result<String, OutOfMemory>
    ensures { IfOk result (λ name. string_bytes name ≡ numbered base.now number) }
{
    if number == 0 {
        return Ok(String::from_str(alloc, base)?);
    }
    Ok(format!(in alloc; "{base}#{number}")?)
}

// The name of a file, from what a URL gives and a number.
pub(crate) fn named(alloc: Global, base: &str, number: u64) -> Result<FileName, OutOfMemory>
    requires { IsGiven base.now }
    ensures { IfOk result (λ name. name ≡ numbered base.now number) }
{
    Ok(FileName {
        name: numbered(alloc, base, number)?,
    })
}

/// The name that the text of a URL gives, with a number where it isn't 0: the last segment of the path as written, percent signs and all,
/// of at most 234 bytes; `index.html` where that is empty. A dot in front, and each byte that isn't visible ASCII, becomes `_`. The number
/// follows a `#`, which no path of a URL has.
///
/// Returns `OutOfMemory` where memory for it is refused.
pub fn file_name(alloc: Global, url: &[u8], number: u64) -> Result<FileName, OutOfMemory>
    ensures { IfOk result (λ name. name ≡ numbered (base_name url.now) number) }
{
    let base = base_name(alloc, url)?;
    named(alloc, base.as_str(), number)
}

/// The name of a part: of this process, and of this number.
///
/// Returns `OutOfMemory` where memory for it is refused.
pub fn part_name(alloc: Global, process: u32, number: u64) -> Result<PartName, OutOfMemory>
    ensures { IfOk result (λ name. name ≡ part_of process number) }
{
    Ok(PartName {
        name: format!(in alloc; ".mxfetch-{process}-{number}.part")?,
    })
}
