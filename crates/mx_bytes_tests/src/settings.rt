//! The settings that requests are built with.

use mx_types::Settings;
use std::alloc::{AllocError, Global};

/// Header fields, each a name and a value.
type Fields = Vec<(String, String)>;

/// What a request is built with, beside its method and its URL.
#[derive(Clone, Copy)]
pub(crate) enum Given {
    Nothing,
    /// A user agent, a field, the body `hi` and a limit of 250 milliseconds.
    All,
    /// A field.
    Field(&'static str, &'static str),
    /// A field, and a body that is too large.
    FieldAndBody(&'static str, &'static str),
    /// A user agent that is refused, and a body that is too large.
    Faults,
    /// The body `hi`.
    Hi,
    /// A body of so many bytes.
    Body(usize),
    /// So many fields.
    Fields(usize),
    /// A user agent of so many bytes.
    Agent(usize),
    /// A field with a value of so many bytes.
    Value(usize),
    /// The fields of a chain, a user agent, 250 milliseconds, and 9 redirects.
    Chain,
}

/// The most bytes of a body, and one more.
const LARGE: usize = 1_048_577;

/// The fields of a chain. Two names of them are private, in any letter case, and each of these is there twice.
static CHAIN: [(&str, &str); 7] = [
    ("Cookie", "a=1"),
    ("X-A", "1"),
    ("AUTHORIZATION", "Basic eDp5"),
    ("Cookie2", "2"),
    ("authorization", "Basic eDp6"),
    ("cOOKIE", "b=2"),
    ("Proxy-Authorization", "3"),
];

/// A text, and then so many letters.
fn long(alloc: Global, front: &str, len: usize) -> Result<String, AllocError> {
    let mut long = String::from_str(alloc, front)?;
    add_letters(&mut long, len)?;
    Ok(long)
}

fn add_letters(text: &mut String, len: usize) -> Result<(), AllocError> {
    for _ in 0..len {
        text.push('v')?;
    }
    Ok(())
}

/// A field, with so many letters behind its value.
fn field(
    alloc: Global,
    name: &str,
    value: &str,
    len: usize,
) -> Result<(String, String), AllocError> {
    let name = String::from_str(alloc, name)?;
    let value = long(alloc, value, len)?;
    Ok((name, value))
}

/// Adds that field.
fn add_field(
    alloc: Global,
    fields: &mut Fields,
    name: &str,
    value: &str,
    len: usize,
) -> Result<(), AllocError> {
    let field = field(alloc, name, value, len)?;
    fields.push(field)?;
    Ok(())
}

/// Adds so many fields.
fn add_many(alloc: Global, fields: &mut Fields, count: usize) -> Result<(), AllocError> {
    for _ in 0..count {
        add_field(alloc, fields, "X", "", 0)?;
    }
    Ok(())
}

/// Adds the fields of a chain.
fn add_chain(alloc: Global, fields: &mut Fields) -> Result<(), AllocError> {
    for row in &CHAIN {
        let (name, value) = *row;
        add_field(alloc, fields, name, value, 0)?;
    }
    Ok(())
}

/// How many milliseconds a request may take that is built so, and how many redirects it follows.
pub(crate) fn kept_of(given: Given) -> (u32, u8) {
    match given {
        Given::All => (250, 0),
        Given::Chain => (250, 9),
        _ => (0, 0),
    }
}

/// The text of the user agent, and how many letters are behind it.
fn agent_of(given: Given) -> Option<(&'static str, usize)> {
    match given {
        Given::All | Given::Chain => Some(("mx/1", 0)),
        Given::Faults => Some((" ", 0)),
        Given::Agent(len) => Some(("", len)),
        _ => None,
    }
}

/// Sets the user agent.
fn set_agent(alloc: Global, settings: &mut Settings, given: Given) -> Result<(), AllocError> {
    if let Some((text, len)) = agent_of(given) {
        settings.user_agent = Some(long(alloc, text, len)?);
    }
    Ok(())
}

/// Adds the fields.
fn add_fields(alloc: Global, fields: &mut Fields, given: Given) -> Result<(), AllocError> {
    match given {
        Given::All => add_field(alloc, fields, "X-A", "1", 0),
        Given::Field(name, value) | Given::FieldAndBody(name, value) => {
            add_field(alloc, fields, name, value, 0)
        }
        Given::Fields(count) => add_many(alloc, fields, count),
        Given::Value(len) => add_field(alloc, fields, "X", "", len),
        Given::Chain => add_chain(alloc, fields),
        _ => Ok(()),
    }
}

/// How many times `b` is the body; none where it is `hi`.
fn body_len(given: Given) -> Option<usize> {
    match given {
        Given::FieldAndBody(..) | Given::Faults => Some(LARGE),
        Given::Body(len) => Some(len),
        _ => None,
    }
}

/// The body of those that have one.
fn body(alloc: Global, given: Given) -> Result<Vec<u8>, AllocError> {
    match body_len(given) {
        Some(len) => vec![in alloc; b'b'; len],
        None => Vec::from_slice(alloc, b"hi"),
    }
}

/// Whether there is a body.
fn has_body(given: Given) -> bool {
    body_len(given).is_some() || matches!(given, Given::All | Given::Hi)
}

/// Sets the body.
fn set_body(alloc: Global, settings: &mut Settings, given: Given) -> Result<(), AllocError> {
    if has_body(given) {
        settings.body = Some(body(alloc, given)?);
    }
    Ok(())
}

/// Sets these parts.
fn set_all(alloc: Global, settings: &mut Settings, given: Given) -> Result<(), AllocError> {
    let (timeout_ms, max_redirects) = kept_of(given);
    settings.timeout_ms = timeout_ms;
    settings.max_redirects = max_redirects;
    set_agent(alloc, settings, given)?;
    add_fields(alloc, &mut settings.fields, given)?;
    set_body(alloc, settings, given)
}

/// Settings of these parts.
pub(crate) fn settings_of(alloc: Global, given: Given) -> Result<Settings, AllocError> {
    let mut settings = Settings::new(alloc);
    set_all(alloc, &mut settings, given)?;
    Ok(settings)
}

/// Settings with just this field.
pub(crate) fn with_field(alloc: Global, name: &str, value: &str) -> Result<Settings, AllocError> {
    let mut settings = Settings::new(alloc);
    add_field(alloc, &mut settings.fields, name, value, 0)?;
    Ok(settings)
}
