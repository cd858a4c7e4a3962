//! URLs and settings, with the bytes that they have to give, and those that are refused.

use crate::request_row::{GET, Row, Rows, Seen};
use crate::settings::Given;
use mx_request::RequestError;
use mx_types::Method;

static SENT: [Row; 8] = [
    // rule request-host
    Row {
        name: "url_with_port_query_and_fragment",
        url: "http://127.0.0.1:8080/a?b#c",
        seen: Seen::Sent("GET /a?b HTTP/1.1\r\nHost: 127.0.0.1:8080\r\nAccept: */*\r\n\r\n"),
        ..GET
    },
    // rule request-host
    Row {
        name: "url_in_capitals_with_port_80_and_a_blank",
        url: "HTTP://EXAMPLE.com:80/x y",
        seen: Seen::Sent("GET /x%20y HTTP/1.1\r\nHost: example.com\r\nAccept: */*\r\n\r\n"),
        ..GET
    },
    Row {
        name: "head_of_a_url_without_a_path",
        method: Method::Head,
        url: "http://example.com",
        seen: Seen::Sent("HEAD / HTTP/1.1\r\nHost: example.com\r\nAccept: */*\r\n\r\n"),
        ..GET
    },
    Row {
        name: "url_with_a_host_in_brackets",
        url: "http://[::1]:81/",
        seen: Seen::Sent("GET / HTTP/1.1\r\nHost: [::1]:81\r\nAccept: */*\r\n\r\n"),
        ..GET
    },
    // rule request-host
    Row {
        name: "url_with_an_empty_query",
        url: "http://example.com/?",
        seen: Seen::Sent("GET /? HTTP/1.1\r\nHost: example.com\r\nAccept: */*\r\n\r\n"),
        ..GET
    },
    Row {
        name: "all_that_settings_add",
        method: Method::Post,
        url: "http://example.com/p",
        given: Given::All,
        seen: Seen::Sent(
            "POST /p HTTP/1.1\r\nHost: example.com\r\nUser-Agent: mx/1\r\nAccept: */*\r\nX-A: 1\r\n\
            Content-Length: 2\r\n\r\nhi",
        ),
        ..GET
    },
    // rule request-accept
    Row {
        name: "a_callers_own_accept",
        given: Given::Field("accept", "text/plain"),
        seen: Seen::Sent("GET / HTTP/1.1\r\nHost: example.com\r\naccept: text/plain\r\n\r\n"),
        ..GET
    },
    // rule request-body-length
    Row {
        name: "an_empty_body_has_its_length",
        method: Method::Put,
        url: "http://h/",
        given: Given::Body(0),
        seen: Seen::Sent("PUT / HTTP/1.1\r\nHost: h\r\nAccept: */*\r\nContent-Length: 0\r\n\r\n"),
        ..GET
    },
];

/// Requests and their bytes.
pub(crate) fn sent() -> Rows {
    Rows::Any(&SENT)
}

static HOSTILE: [Row; 13] = [
    Row {
        name: "endpoint_with_a_port",
        url: "http://127.0.0.1:8080/a?b#c",
        seen: Seen::Endpoint("127.0.0.1", 8080),
        ..GET
    },
    Row {
        name: "endpoint_in_capitals",
        url: "HTTP://EXAMPLE.com:80/x y",
        seen: Seen::Endpoint("example.com", 80),
        ..GET
    },
    Row {
        name: "endpoint_in_brackets",
        url: "http://[::1]:81/",
        seen: Seen::Endpoint("[::1]", 81),
        ..GET
    },
    // hosts
    Row {
        name: "host_of_letters_above_127",
        url: "http://b\u{fc}cher.example/",
        seen: Seen::Get("/", "xn--bcher-kva.example"),
        ..GET
    },
    Row {
        name: "host_of_two_numbers",
        url: "http://127.1/",
        seen: Seen::Get("/", "127.0.0.1"),
        ..GET
    },
    Row {
        name: "host_in_hex",
        url: "http://0x7f000001:80/",
        seen: Seen::Get("/", "127.0.0.1"),
        ..GET
    },
    Row {
        name: "host_with_an_escape",
        url: "http://ex%61mple.com/",
        seen: Seen::Get("/", "example.com"),
        ..GET
    },
    Row {
        name: "host_behind_backslashes",
        url: "http:\\\\example.com\\a",
        seen: Seen::Get("/a", "example.com"),
        ..GET
    },
    // targets
    Row {
        name: "tab_and_line_end_in_a_url",
        url: "http://exa\tmple.com/a\r\nb",
        seen: Seen::Get("/ab", "example.com"),
        ..GET
    },
    Row {
        name: "field_line_in_a_path",
        url: "http://h/a HTTP/1.1\r\nX: y\r\n\r\n",
        seen: Seen::Get("/a%20HTTP/1.1X:%20y", "h"),
        ..GET
    },
    Row {
        name: "field_line_in_a_query",
        url: "http://h/?a\r\nX: y",
        seen: Seen::Get("/?aX:%20y", "h"),
        ..GET
    },
    Row {
        name: "escaped_line_end",
        url: "http://h/%0d%0aX:y",
        seen: Seen::Get("/%0d%0aX:y", "h"),
        ..GET
    },
    Row {
        name: "controls_around_a_url",
        url: "\n http://h/\u{7f}\u{0}",
        seen: Seen::Get("/%7F", "h"),
        ..GET
    },
];

/// Endpoints, hosts and targets.
pub(crate) fn hostile() -> Rows {
    Rows::Any(&HOSTILE)
}

/// Whatever else is wrong.
const FAULTY: Row = Row {
    given: Given::Faults,
    ..GET
};

// rule request-refusals
static REFUSED: [Row; 10] = [
    Row {
        name: "refused_url_https_with_a_user",
        url: "https://u@example.com/",
        seen: Seen::Refused(RequestError::Scheme),
        ..FAULTY
    },
    Row {
        name: "refused_url_mailto",
        url: "mailto:a@example.com",
        seen: Seen::Refused(RequestError::Scheme),
        ..FAULTY
    },
    Row {
        name: "refused_url_no_scheme",
        url: "example.com",
        seen: Seen::Refused(RequestError::Malformed),
        ..FAULTY
    },
    Row {
        name: "refused_url_no_host",
        url: "http:///",
        seen: Seen::Refused(RequestError::Malformed),
        ..FAULTY
    },
    Row {
        name: "refused_url_port_65536",
        url: "http://h:65536/",
        seen: Seen::Refused(RequestError::Malformed),
        ..FAULTY
    },
    Row {
        name: "refused_url_user",
        url: "http://u@example.com/",
        seen: Seen::Refused(RequestError::UserInfo),
        ..FAULTY
    },
    Row {
        name: "refused_url_password",
        url: "http://:p@example.com/",
        seen: Seen::Refused(RequestError::UserInfo),
        ..FAULTY
    },
    // no line end gets into a host
    Row {
        name: "refused_url_escaped_lf_in_a_host",
        url: "http://exam%0aple.com/",
        seen: Seen::Refused(RequestError::Malformed),
        ..FAULTY
    },
    Row {
        name: "refused_url_escaped_line_end_in_a_host",
        url: "http://a%0d%0ab/",
        seen: Seen::Refused(RequestError::Malformed),
        ..FAULTY
    },
    Row {
        name: "refused_url_blank_in_a_host",
        url: "http://a b/",
        seen: Seen::Refused(RequestError::Malformed),
        ..FAULTY
    },
];

/// URLs that are refused, whatever else is wrong.
pub(crate) fn refused() -> Rows {
    Rows::Any(&REFUSED)
}

/// A POST to a short URL.
const POST: Row = Row {
    method: Method::Post,
    url: "http://h/",
    ..GET
};

static LIMITS: [Row; 8] = [
    // rule request-body-size
    Row {
        name: "body_of_1048576",
        given: Given::Body(1_048_576),
        ..POST
    },
    // rule request-body-size
    Row {
        name: "body_of_1048577",
        given: Given::Body(1_048_577),
        seen: Seen::Refused(RequestError::BodyTooLarge),
        ..POST
    },
    // rule request-field-count
    Row {
        name: "fields_64",
        given: Given::Fields(64),
        ..POST
    },
    // rule request-field-count
    Row {
        name: "fields_65",
        given: Given::Fields(65),
        seen: Seen::Refused(RequestError::BadField),
        ..POST
    },
    // rule request-field-values
    Row {
        name: "user_agent_of_8192",
        given: Given::Agent(8_192),
        ..POST
    },
    // rule request-field-values
    Row {
        name: "user_agent_of_8193",
        given: Given::Agent(8_193),
        seen: Seen::Refused(RequestError::BadField),
        ..POST
    },
    // rule request-field-values
    Row {
        name: "value_of_8192",
        given: Given::Value(8_192),
        ..POST
    },
    // rule request-field-values
    Row {
        name: "value_of_8193",
        given: Given::Value(8_193),
        seen: Seen::Refused(RequestError::BadField),
        ..POST
    },
];

/// Bodies, fields and values at their limits.
pub(crate) fn limits() -> Rows {
    Rows::Any(&LIMITS)
}
