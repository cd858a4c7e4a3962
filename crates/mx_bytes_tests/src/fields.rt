//! Fields that are refused, and each character in a name and a value.

use crate::request_row::{GET, Row, Rows, Seen};
use crate::settings::{Given, with_field};
use mx_request::{Request, RequestError};
use mx_types::{Method, Settings};
use std::alloc::{AllocError, Global};

/// A field that is refused.
const BAD: Row = Row {
    seen: Seen::Refused(RequestError::BadField),
    ..GET
};

// rule request-field-names
static ALONE: [Row; 11] = [
    Row {
        name: "refused_field_host",
        given: Given::Field("Host", "x"),
        ..BAD
    },
    Row {
        name: "refused_field_user_agent",
        given: Given::Field("USER-AGENT", "x"),
        ..BAD
    },
    Row {
        name: "refused_field_content_length",
        given: Given::Field("content-length", "2"),
        ..BAD
    },
    Row {
        name: "refused_field_transfer_encoding",
        given: Given::Field("Transfer-encoding", "chunked"),
        ..BAD
    },
    Row {
        name: "refused_field_connection",
        given: Given::Field("Connection", "close"),
        ..BAD
    },
    Row {
        name: "refused_field_expect",
        given: Given::Field("Expect", "100-continue"),
        ..BAD
    },
    Row {
        name: "refused_field_upgrade",
        given: Given::Field("upgrade", "h2c"),
        ..BAD
    },
    Row {
        name: "refused_field_te",
        given: Given::Field("te", "trailers"),
        ..BAD
    },
    Row {
        name: "refused_field_trailer",
        given: Given::Field("Trailer", "X"),
        ..BAD
    },
    Row {
        name: "refused_field_without_a_name",
        given: Given::Field("", "1"),
        ..BAD
    },
    Row {
        name: "refused_field_with_a_cr",
        given: Given::Field("X-A", "1\r2"),
        ..BAD
    },
];

/// Fields that are refused.
pub(crate) fn alone() -> Rows {
    Rows::Any(&ALONE)
}

// rule request-refusals
static WITH_BODY: [Row; 11] = [
    Row {
        name: "refused_field_host_and_a_large_body",
        given: Given::FieldAndBody("Host", "x"),
        ..BAD
    },
    Row {
        name: "refused_field_user_agent_and_a_large_body",
        given: Given::FieldAndBody("USER-AGENT", "x"),
        ..BAD
    },
    Row {
        name: "refused_field_content_length_and_a_large_body",
        given: Given::FieldAndBody("content-length", "2"),
        ..BAD
    },
    Row {
        name: "refused_field_transfer_encoding_and_a_large_body",
        given: Given::FieldAndBody("Transfer-encoding", "chunked"),
        ..BAD
    },
    Row {
        name: "refused_field_connection_and_a_large_body",
        given: Given::FieldAndBody("Connection", "close"),
        ..BAD
    },
    Row {
        name: "refused_field_expect_and_a_large_body",
        given: Given::FieldAndBody("Expect", "100-continue"),
        ..BAD
    },
    Row {
        name: "refused_field_upgrade_and_a_large_body",
        given: Given::FieldAndBody("upgrade", "h2c"),
        ..BAD
    },
    Row {
        name: "refused_field_te_and_a_large_body",
        given: Given::FieldAndBody("te", "trailers"),
        ..BAD
    },
    Row {
        name: "refused_field_trailer_and_a_large_body",
        given: Given::FieldAndBody("Trailer", "X"),
        ..BAD
    },
    Row {
        name: "refused_field_without_a_name_and_a_large_body",
        given: Given::FieldAndBody("", "1"),
        ..BAD
    },
    Row {
        name: "refused_field_with_a_cr_and_a_large_body",
        given: Given::FieldAndBody("X-A", "1\r2"),
        ..BAD
    },
];

/// The same, with a body that is too large.
pub(crate) fn with_body() -> Rows {
    Rows::Any(&WITH_BODY)
}

/// Adds three letters with this character in place of the one at the place.
fn add_placed(text: &mut String, c: char, place: usize) -> Result<(), AllocError> {
    for i in 0..3 {
        text.push(if i == place { c } else { 'a' })?;
    }
    Ok(())
}

/// The text of them.
fn placed(alloc: Global, c: char, place: usize) -> Result<String, AllocError> {
    let mut text = String::new(alloc);
    add_placed(&mut text, c, place)?;
    Ok(text)
}

/// How often the byte is among the bytes.
fn count_of(bytes: &[u8], byte: u8) -> usize {
    let mut count = 0usize;
    for other in bytes {
        count = count.saturating_add(usize::from(*other == byte));
    }
    count
}

/// How many LF and CR a request with these settings has, or what it is refused for.
fn line_ends(alloc: Global, settings: Settings) -> Result<(usize, usize), RequestError> {
    let request = Request::build(alloc, Method::Get, "http://example.com/", settings)?;
    let bytes = request.bytes();
    let ends = (count_of(bytes, b'\n'), count_of(bytes, b'\r'));
    drop(request);
    Ok(ends)
}

/// Whether a field is refused exactly where it isn't allowed, and a request that is built has no line beside its own.
fn is_field_right(alloc: Global, name: &str, value: &str, is_allowed: bool) -> bool {
    let expected = if is_allowed {
        Ok((5, 5))
    } else {
        Err(RequestError::BadField)
    };
    match with_field(alloc, name, value) {
        Ok(settings) => line_ends(alloc, settings) == expected,
        Err(AllocError) => false,
    }
}

/// Whether a name and a value with the character are allowed.
///
/// RFC 9110, section 5.6.2, lists the marks of a name.
fn are_allowed(c: char, place: usize) -> (bool, bool) {
    let is_token = c.is_ascii_alphanumeric() || "!#$%&'*+-.^_`|~".contains(c);
    let is_blank = c == ' ' || c == '\t';
    let is_control = (c < ' ' && c != '\t') || c == '\u{7f}';
    (is_token, !is_control && (!is_blank || place == 1))
}

/// Whether a field of this name, and one of this value, are right.
fn is_text_right(alloc: Global, text: &str, allowed: (bool, bool)) -> bool {
    let (as_name, as_value) = allowed;
    is_field_right(alloc, text, "v", as_name) & is_field_right(alloc, "X", text, as_value)
}

/// Whether names and values are right that have the character at that place of three.
fn is_right_at(alloc: Global, c: char, place: usize) -> bool {
    match placed(alloc, c, place) {
        Ok(text) => is_text_right(alloc, text.as_str(), are_allowed(c, place)),
        Err(AllocError) => false,
    }
}

/// Whether they are at the first, the middle and the last place.
fn is_character_right(alloc: Global, c: char) -> bool {
    is_right_at(alloc, c, 0) & is_right_at(alloc, c, 1) & is_right_at(alloc, c, 2)
}

/// Characters of two, three and four bytes.
static LONG: [char; 3] = ['\u{7ff}', '\u{ffff}', '\u{10ffff}'];

/// The first of them that isn't right in a name or in a value.
fn wrong_long(alloc: Global) -> Option<char> {
    for c in &LONG {
        if !is_character_right(alloc, *c) {
            return Some(*c);
        }
    }
    None
}

/// The first character that isn't right in a name or in a value.
///
/// The characters up to 255 have each byte below 128, the bytes 128 to 191 and two more; the others begin with bytes up to 244. No other
/// byte is in a text.
pub(crate) fn wrong_character(alloc: Global) -> Option<char> {
    for byte in 0..=255u8 {
        if !is_character_right(alloc, char::from(byte)) {
            return Some(char::from(byte));
        }
    }
    wrong_long(alloc)
}
