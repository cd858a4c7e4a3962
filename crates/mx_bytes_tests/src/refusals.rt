//! Refusals, and the lengths of texts that are refused.

use mx_request::{Request, RequestError};
use mx_types::{Code, Method, Settings};
use std::alloc::{AllocError, Global};

/// Each refusal with its number, its code and its message.
static REFUSALS: [(RequestError, u32, Code, &str); 6] = [
    (
        RequestError::Scheme,
        1,
        Code::UnsupportedProtocol,
        "the scheme of the URL isn't http",
    ),
    (
        RequestError::Malformed,
        2,
        Code::UrlMalformat,
        "the URL doesn't parse, or is over 65,536 bytes",
    ),
    (
        RequestError::UserInfo,
        3,
        Code::UrlMalformat,
        "the URL has a user name or a password",
    ),
    (
        RequestError::BadField,
        4,
        Code::UrlMalformat,
        "a header field can't be sent: its name, its value or the number of fields isn't allowed",
    ),
    (
        RequestError::BodyTooLarge,
        5,
        Code::FilesizeExceeded,
        "the body is over 1,048,576 bytes",
    ),
    (
        RequestError::OutOfMemory,
        6,
        Code::OutOfMemory,
        "out of memory",
    ),
];

/// Whether a refusal has that message.
fn tells(alloc: Global, refusal: RequestError, message: &str) -> bool {
    match refusal.to_string(alloc) {
        Ok(text) => text.as_str() == message,
        Err(AllocError) => false,
    }
}

/// Whether a refusal has that number, that code and that message.
fn is_as_told(alloc: Global, row: &(RequestError, u32, Code, &'static str)) -> bool {
    let (refusal, number, code, message) = *row;
    tells(alloc, refusal, message) & (refusal.number() == number) & (refusal.code() == code)
}

/// The message of the first refusal that has others.
pub(crate) fn wrong_refusal(alloc: Global) -> Option<&'static str> {
    for row in &REFUSALS {
        if !is_as_told(alloc, row) {
            return Some(row.3);
        }
    }
    None
}

/// A text: its beginning, a character so many times, its end, its length, and what it is refused for.
struct Text {
    name: &'static str,
    front: &'static str,
    unit: char,
    count: usize,
    end: &'static str,
    len: usize,
    refused: Option<RequestError>,
}

const MALFORMED: Option<RequestError> = Some(RequestError::Malformed);

// rule request-url-size
/// URLs.
static URLS: [Text; 3] = [
    Text {
        name: "url_of_65536",
        front: "http://example.com/",
        unit: 'a',
        count: 65_517,
        end: "",
        len: 65_536,
        refused: None,
    },
    Text {
        name: "url_of_65537",
        front: "http://example.com/",
        unit: 'a',
        count: 65_518,
        end: "",
        len: 65_537,
        refused: MALFORMED,
    },
    Text {
        name: "url_of_70000",
        front: "http://example.com/",
        unit: 'a',
        count: 69_981,
        end: "",
        len: 70_000,
        refused: MALFORMED,
    },
];

/// Locations. 21 bytes are before a path of the first endpoint, and a space is written as three.
static LOCATIONS: [Text; 9] = [
    Text {
        name: "location_that_joins_65536",
        front: "/",
        unit: 'a',
        count: 65_514,
        end: "",
        len: 65_515,
        refused: None,
    },
    Text {
        name: "location_that_joins_65537",
        front: "/",
        unit: 'a',
        count: 65_515,
        end: "",
        len: 65_516,
        refused: MALFORMED,
    },
    Text {
        name: "location_of_spaces_that_joins_65536",
        front: "/",
        unit: ' ',
        count: 21_837,
        end: "aaa",
        len: 21_841,
        refused: None,
    },
    Text {
        name: "location_of_spaces_that_joins_65537",
        front: "/",
        unit: ' ',
        count: 21_838,
        end: "a",
        len: 21_840,
        refused: MALFORMED,
    },
    Text {
        name: "location_with_a_fragment_that_joins_65536",
        front: "/#",
        unit: 'f',
        count: 65_513,
        end: "",
        len: 65_515,
        refused: None,
    },
    Text {
        name: "location_with_a_fragment_that_joins_65537",
        front: "/#",
        unit: 'f',
        count: 65_514,
        end: "",
        len: 65_516,
        refused: MALFORMED,
    },
    // its own length doesn't count
    Text {
        name: "location_of_70002",
        front: "",
        unit: ' ',
        count: 70_000,
        end: "/x",
        len: 70_002,
        refused: None,
    },
    // what is too long is that first
    Text {
        name: "https_location_that_joins_65536",
        front: "https://x/",
        unit: 'a',
        count: 65_526,
        end: "",
        len: 65_536,
        refused: Some(RequestError::Scheme),
    },
    Text {
        name: "https_location_that_joins_65537",
        front: "https://x/",
        unit: 'a',
        count: 65_527,
        end: "",
        len: 65_537,
        refused: MALFORMED,
    },
];

/// Adds a text.
fn add(long: &mut String, text: &Text) -> bool {
    let mut is_added = long.push_str(text.front).is_ok();
    for _ in 0..text.count {
        is_added = long.push(text.unit).is_ok() & is_added;
    }
    long.push_str(text.end).is_ok() & is_added
}

/// What a text is refused for, as a URL or, where a request is followed, as a Location.
fn refusal_of(alloc: Global, text: &str, request: Option<&Request>) -> Option<RequestError> {
    match request {
        Some(request) => request.follow(alloc, 301, text.as_bytes()).err(),
        None => Request::build(alloc, Method::Post, text, Settings::new(alloc)).err(),
    }
}

/// Whether a text has that length, and is refused for that.
fn is_right(alloc: Global, text: &Text, request: Option<&Request>) -> bool {
    let mut long = String::new(alloc);
    let is_added = add(&mut long, text);
    let refused = refusal_of(alloc, long.as_str(), request);
    is_added & (long.len() == text.len) & (refused == text.refused)
}

/// The name of the first text that has another length, or is refused for something else.
fn first_wrong(alloc: Global, texts: &[Text], request: Option<&Request>) -> Option<&'static str> {
    for text in texts {
        if !is_right(alloc, text, request) {
            return Some(text.name);
        }
    }
    None
}

/// The name of the first URL that is so.
pub(crate) fn wrong_url(alloc: Global) -> Option<&'static str> {
    first_wrong(alloc, &URLS, None)
}

/// The name of the first Location that is so.
pub(crate) fn wrong_location(alloc: Global) -> Option<&'static str> {
    let url = "http://127.0.0.1:8080/a/b?c#d";
    match Request::build(alloc, Method::Get, url, Settings::new(alloc)) {
        Ok(request) => {
            let wrong = first_wrong(alloc, &LOCATIONS, Some(&request));
            drop(request);
            wrong
        }
        Err(_) => Some("the request before the Locations"),
    }
}
