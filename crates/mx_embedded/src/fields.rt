//! Header fields from lines `Name: value`.
ghost use Rattle.std.specs.Prelude.{◌≡◌, ◌<◌, ◌⊎◌, ℕ, List, [], ◌∷◌, length, IfErr, IfOk, IfSome, MatchOption, string_bytes};
ghost use Rattle.std.specs.List.{Contains, position_or_len};
ghost use Rattle.mx_types.specs.Settings.{Field};
ghost use Rattle.mx_types.specs.declared.code.Code.TheVariants as code;
ghost use Rattle.mx_embedded.specs.Words.{ArePut, HasNoField, IsFieldOf, IsPut, is_colon, lines_of, names_user_agent, with_field};

use mx_types::{Code, Settings};
use std::alloc::Global;

/// A copy of the text.
pub(crate) fn copy_text(alloc: Global, text: &str) -> Result<String, Code>
    ensures copy { IfOk result (λ copy. string_bytes copy ≡ text.now) }
    ensures memory { IfErr result (λ c. c ≡ code.OutOfMemory) }
{
    match String::from_str(alloc, text) {
        Ok(copy) => Ok(copy),
        Err(_) => Err(Code::OutOfMemory),
    }
}

/// A copy of the bytes.
pub(crate) fn copy_bytes(alloc: Global, bytes: &[u8]) -> Result<Vec<u8>, Code>
    ensures copy { IfOk result (λ copy. copy.items ≡ bytes.now) }
    ensures memory { IfErr result (λ c. c ≡ code.OutOfMemory) }
{
    let mut copy = Vec::new(alloc);
    match copy.extend_from_slice(bytes) {
        Ok(()) => Ok(copy),
        Err(_) => Err(Code::OutOfMemory),
    }
}

// Whether the name is that of the user agent.
fn names_user_agent(name: &str) -> bool
    ensures { result ≡ names_user_agent name.now }
{
    name.eq_ignore_ascii_case("user-agent")
}

// Puts in a field. The user agent goes to its place.
fn put_field(settings: &mut Settings, name: String, value: String) -> Result<(), Code>
    ensures put { IfOk result (λ _. settings.new ≡ with_field (record { name = string_bytes name; value = string_bytes value }) (names_user_agent (string_bytes name)) settings.old) }
    ensures memory { IfErr result (λ c. c ≡ code.OutOfMemory) }
{
    if names_user_agent(name.as_str()) {
        drop(name);
        settings.user_agent = Some(value);
        return Ok(());
    }
    match settings.fields.push((name, value)) {
        Ok(()) => Ok(()),
        Err(_) => Err(Code::OutOfMemory),
    }
}

// The field of a line, if that has a colon: its name, and its value.
fn field_of(line: &str) -> Option<(&str, &str)>
    ensures { MatchOption result (position_or_len is_colon line.now ≡ length line.now) (λ f. IsFieldOf line.now (record { name = f.0.now; value = f.1.now })) }
{
    let (name, value) = line.split_once(':')?;
    Some((name, value.trim_ascii()))
}

// Puts in the field of a line, unless the line is empty but for white space.
fn put_line(alloc: Global, settings: &mut Settings, line: &str) -> Result<(), Code>
    ensures put { IfOk result (λ _. IsPut line.now settings.old settings.new) }
    ensures refused { IfErr result (λ c. (c ≡ code.OutOfMemory) ⊎ ((c ≡ code.UrlMalformat) × HasNoField line.now)) }
{
    if line.trim_ascii().is_empty() {
        return Ok(());
    }
    let Some((name, value)) = field_of(line) else {
        return Err(Code::UrlMalformat);
    };
    let name = copy_text(alloc, name)?;
    let value = copy_text(alloc, value)?;
    put_field(settings, name, value)
}

// The first line, and what is behind it, where there is a line feed.
#[tactic(auto, using(crate::proofs::LineLemmas::first_line, crate::proofs::LineLemmas::last_line))]
fn cut_line(text: &str) -> Option<(&str, &str)>
    ensures lines { MatchOption result (lines_of text.now ≡ text.now ∷ []) (λ cut. lines_of text.now ≡ cut.0.now ∷ lines_of cut.1.now) }
    ensures less { IfSome result (λ cut. length cut.1.now < length text.now) }
{
    text.split_once('\n')
}

/// Puts in the field of each line: lines end with LF or CRLF, the last one with nothing, too, and empty ones are passed over. A line without
/// a colon is refused with the code of a field that can't be sent.
pub(crate) fn put_fields(alloc: Global, settings: &mut Settings, lines: &str) -> Result<(), Code>
    ensures put { IfOk result (λ _. ArePut (lines_of lines.now) settings.old settings.new) }
    ensures refused { IfErr result (λ c. (c ≡ code.OutOfMemory) ⊎ ((c ≡ code.UrlMalformat) × ((line : List ℕ) × Contains (lines_of lines.now) line × HasNoField line))) }
{
    let mut rest = lines;
    while let Some((line, after)) = cut_line(rest) {
        match put_line(alloc, settings, line) {
            Ok(()) => rest = after,
            Err(code) => return Err(code),
        }
    }
    put_line(alloc, settings, rest)
}
