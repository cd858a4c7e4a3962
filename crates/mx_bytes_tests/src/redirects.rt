//! Requests that follow others: the bytes that they have to give by RFC 9110, sections 10.2.2 and 15.4, and which Locations are refused.

use crate::request_row::{FROM, GET, Hop, Led, Row, Rows, Seen};
use crate::settings::Given;
use mx_request::{RequestError, is_redirect};
use mx_types::Method;

/// A GET with the body `hi`.
const WITH_HI: Row = Row {
    given: Given::Hi,
    ..FROM
};

// The request to /c, each method's with the body `hi`, and GET without one.
const GET_C: &str = "GET /c HTTP/1.1\r\nHost: 127.0.0.1:8080\r\nAccept: */*\r\n\r\n";

const GET_C_HI: &str =
    "GET /c HTTP/1.1\r\nHost: 127.0.0.1:8080\r\nAccept: */*\r\nContent-Length: 2\r\n\r\nhi";

const HEAD_C_HI: &str =
    "HEAD /c HTTP/1.1\r\nHost: 127.0.0.1:8080\r\nAccept: */*\r\nContent-Length: 2\r\n\r\nhi";

const POST_C_HI: &str =
    "POST /c HTTP/1.1\r\nHost: 127.0.0.1:8080\r\nAccept: */*\r\nContent-Length: 2\r\n\r\nhi";

const PUT_C_HI: &str =
    "PUT /c HTTP/1.1\r\nHost: 127.0.0.1:8080\r\nAccept: */*\r\nContent-Length: 2\r\n\r\nhi";

const DELETE_C_HI: &str =
    "DELETE /c HTTP/1.1\r\nHost: 127.0.0.1:8080\r\nAccept: */*\r\nContent-Length: 2\r\n\r\nhi";

const OPTIONS_C_HI: &str =
    "OPTIONS /c HTTP/1.1\r\nHost: 127.0.0.1:8080\r\nAccept: */*\r\nContent-Length: 2\r\n\r\nhi";

// rule redirect-method
static GET_MADE: [Led; 18] = [
    (
        "get_at_301",
        Method::Get,
        Hop(301, b"/c", Seen::Sent(GET_C_HI)),
    ),
    (
        "head_at_301",
        Method::Head,
        Hop(301, b"/c", Seen::Sent(HEAD_C_HI)),
    ),
    (
        "post_at_301",
        Method::Post,
        Hop(301, b"/c", Seen::Sent(GET_C)),
    ),
    (
        "put_at_301",
        Method::Put,
        Hop(301, b"/c", Seen::Sent(PUT_C_HI)),
    ),
    (
        "delete_at_301",
        Method::Delete,
        Hop(301, b"/c", Seen::Sent(DELETE_C_HI)),
    ),
    (
        "options_at_301",
        Method::Options,
        Hop(301, b"/c", Seen::Sent(OPTIONS_C_HI)),
    ),
    (
        "get_at_302",
        Method::Get,
        Hop(302, b"/c", Seen::Sent(GET_C_HI)),
    ),
    (
        "head_at_302",
        Method::Head,
        Hop(302, b"/c", Seen::Sent(HEAD_C_HI)),
    ),
    (
        "post_at_302",
        Method::Post,
        Hop(302, b"/c", Seen::Sent(GET_C)),
    ),
    (
        "put_at_302",
        Method::Put,
        Hop(302, b"/c", Seen::Sent(PUT_C_HI)),
    ),
    (
        "delete_at_302",
        Method::Delete,
        Hop(302, b"/c", Seen::Sent(DELETE_C_HI)),
    ),
    (
        "options_at_302",
        Method::Options,
        Hop(302, b"/c", Seen::Sent(OPTIONS_C_HI)),
    ),
    (
        "get_at_303",
        Method::Get,
        Hop(303, b"/c", Seen::Sent(GET_C)),
    ),
    (
        "head_at_303",
        Method::Head,
        Hop(303, b"/c", Seen::Sent(HEAD_C_HI)),
    ),
    (
        "post_at_303",
        Method::Post,
        Hop(303, b"/c", Seen::Sent(GET_C)),
    ),
    (
        "put_at_303",
        Method::Put,
        Hop(303, b"/c", Seen::Sent(GET_C)),
    ),
    (
        "delete_at_303",
        Method::Delete,
        Hop(303, b"/c", Seen::Sent(GET_C)),
    ),
    (
        "options_at_303",
        Method::Options,
        Hop(303, b"/c", Seen::Sent(GET_C)),
    ),
];

/// Each method at 301, 302 and 303, with a body.
pub(crate) fn at_301_to_303() -> Rows {
    Rows::Led(Given::Hi, &GET_MADE)
}

// rule redirect-method
static KEPT: [Led; 12] = [
    (
        "get_at_307",
        Method::Get,
        Hop(307, b"/c", Seen::Sent(GET_C_HI)),
    ),
    (
        "head_at_307",
        Method::Head,
        Hop(307, b"/c", Seen::Sent(HEAD_C_HI)),
    ),
    (
        "post_at_307",
        Method::Post,
        Hop(307, b"/c", Seen::Sent(POST_C_HI)),
    ),
    (
        "put_at_307",
        Method::Put,
        Hop(307, b"/c", Seen::Sent(PUT_C_HI)),
    ),
    (
        "delete_at_307",
        Method::Delete,
        Hop(307, b"/c", Seen::Sent(DELETE_C_HI)),
    ),
    (
        "options_at_307",
        Method::Options,
        Hop(307, b"/c", Seen::Sent(OPTIONS_C_HI)),
    ),
    (
        "get_at_308",
        Method::Get,
        Hop(308, b"/c", Seen::Sent(GET_C_HI)),
    ),
    (
        "head_at_308",
        Method::Head,
        Hop(308, b"/c", Seen::Sent(HEAD_C_HI)),
    ),
    (
        "post_at_308",
        Method::Post,
        Hop(308, b"/c", Seen::Sent(POST_C_HI)),
    ),
    (
        "put_at_308",
        Method::Put,
        Hop(308, b"/c", Seen::Sent(PUT_C_HI)),
    ),
    (
        "delete_at_308",
        Method::Delete,
        Hop(308, b"/c", Seen::Sent(DELETE_C_HI)),
    ),
    (
        "options_at_308",
        Method::Options,
        Hop(308, b"/c", Seen::Sent(OPTIONS_C_HI)),
    ),
];

/// Each method at 307 and 308, with a body.
pub(crate) fn at_307_and_308() -> Rows {
    Rows::Led(Given::Hi, &KEPT)
}

// rule redirect-next-url
static LOCATIONS: [Led; 22] = [
    (
        "location_path",
        Method::Get,
        Hop(302, b"/x", Seen::Get("/x", "127.0.0.1:8080")),
    ),
    (
        "location_segment",
        Method::Get,
        Hop(302, b"x", Seen::Get("/a/x", "127.0.0.1:8080")),
    ),
    (
        "location_segment_above",
        Method::Get,
        Hop(302, b"../x", Seen::Get("/x", "127.0.0.1:8080")),
    ),
    (
        "location_dot",
        Method::Get,
        Hop(302, b"./", Seen::Get("/a/", "127.0.0.1:8080")),
    ),
    (
        "location_query",
        Method::Get,
        Hop(302, b"?q", Seen::Get("/a/b?q", "127.0.0.1:8080")),
    ),
    (
        "location_empty_query",
        Method::Get,
        Hop(302, b"?", Seen::Get("/a/b?", "127.0.0.1:8080")),
    ),
    (
        "location_fragment",
        Method::Get,
        Hop(302, b"#f", Seen::Get("/a/b?c", "127.0.0.1:8080")),
    ),
    (
        "location_nothing",
        Method::Get,
        Hop(302, b"", Seen::Get("/a/b?c", "127.0.0.1:8080")),
    ),
    (
        "location_path_with_query_and_fragment",
        Method::Get,
        Hop(302, b"/x?y#f", Seen::Get("/x?y", "127.0.0.1:8080")),
    ),
    (
        "location_scheme_and_segment",
        Method::Get,
        Hop(302, b"http:x", Seen::Get("/a/x", "127.0.0.1:8080")),
    ),
    (
        "location_host_and_slash",
        Method::Get,
        Hop(302, b"//host/", Seen::Get("/", "host")),
    ),
    (
        "location_host",
        Method::Get,
        Hop(302, b"//host", Seen::Get("/", "host")),
    ),
    (
        "location_host_and_port",
        Method::Get,
        Hop(302, b"//host:8081/y", Seen::Get("/y", "host:8081")),
    ),
    (
        "location_host_in_brackets",
        Method::Get,
        Hop(302, b"//[::1]:81/", Seen::Get("/", "[::1]:81")),
    ),
    (
        "location_url_in_capitals_with_port_80",
        Method::Get,
        Hop(
            302,
            b"HTTP://EXAMPLE.com:80/z",
            Seen::Get("/z", "example.com"),
        ),
    ),
    (
        "location_backslashes",
        Method::Get,
        Hop(302, b"\\\\host\\p", Seen::Get("/p", "host")),
    ),
    (
        "location_blanks",
        Method::Get,
        Hop(302, b" /x y ", Seen::Get("/x%20y", "127.0.0.1:8080")),
    ),
    (
        "location_tab",
        Method::Get,
        Hop(302, b"/a\tb", Seen::Get("/ab", "127.0.0.1:8080")),
    ),
    // a line end in a Location adds no line
    (
        "location_line_end",
        Method::Get,
        Hop(
            302,
            b"/a HTTP/1.1\r\nX: y",
            Seen::Get("/a%20HTTP/1.1X:%20y", "127.0.0.1:8080"),
        ),
    ),
    (
        "location_bytes_above_127",
        Method::Get,
        Hop(
            302,
            b"/\xc3\xbc?\xc3\xbc",
            Seen::Get("/%C3%BC?%C3%BC", "127.0.0.1:8080"),
        ),
    ),
    (
        "location_host_of_bytes_above_127",
        Method::Get,
        Hop(
            302,
            b"//b\xc3\xbccher.example/",
            Seen::Get("/", "xn--bcher-kva.example"),
        ),
    ),
    (
        "location_greatest_character",
        Method::Get,
        Hop(
            302,
            b"/\xf4\x8f\xbf\xbf",
            Seen::Get("/%F4%8F%BF%BF", "127.0.0.1:8080"),
        ),
    ),
];

/// Forms of Locations, with the target and the value of Host that they lead to.
pub(crate) fn locations() -> Rows {
    Rows::Led(Given::Nothing, &LOCATIONS)
}

static REFUSED: [Led; 18] = [
    (
        "refused_location_https",
        Method::Get,
        Hop(301, b"https://x/", Seen::Refused(RequestError::Scheme)),
    ),
    (
        "refused_location_https_with_a_user",
        Method::Get,
        Hop(301, b"https://u@x/", Seen::Refused(RequestError::Scheme)),
    ),
    (
        "refused_location_ftp",
        Method::Get,
        Hop(301, b"ftp://x/", Seen::Refused(RequestError::Scheme)),
    ),
    (
        "refused_location_mailto",
        Method::Get,
        Hop(301, b"mailto:a@x", Seen::Refused(RequestError::Scheme)),
    ),
    (
        "refused_location_http_with_a_user",
        Method::Get,
        Hop(301, b"http://u@x/", Seen::Refused(RequestError::UserInfo)),
    ),
    (
        "refused_location_http_with_a_password",
        Method::Get,
        Hop(301, b"http://:p@x/", Seen::Refused(RequestError::UserInfo)),
    ),
    (
        "refused_location_user_and_password",
        Method::Get,
        Hop(301, b"//u:p@x/", Seen::Refused(RequestError::UserInfo)),
    ),
    (
        "refused_location_open_bracket",
        Method::Get,
        Hop(301, b"http://[", Seen::Refused(RequestError::Malformed)),
    ),
    (
        "refused_location_https_and_open_bracket",
        Method::Get,
        Hop(301, b"https://[", Seen::Refused(RequestError::Malformed)),
    ),
    // a URL of this scheme has a host
    (
        "refused_location_ftp_without_a_host",
        Method::Get,
        Hop(301, b"ftp:", Seen::Refused(RequestError::Malformed)),
    ),
    (
        "refused_location_https_port_65536",
        Method::Get,
        Hop(
            301,
            b"https://h:65536/",
            Seen::Refused(RequestError::Malformed),
        ),
    ),
    (
        "refused_location_user_and_port_65536",
        Method::Get,
        Hop(
            301,
            b"http://u@h:65536/",
            Seen::Refused(RequestError::Malformed),
        ),
    ),
    (
        "refused_location_host_with_a_blank",
        Method::Get,
        Hop(301, b"//a b/", Seen::Refused(RequestError::Malformed)),
    ),
    // not UTF-8: no byte of it, one that is cut off, one that is too long, a surrogate
    (
        "refused_location_byte_of_no_utf_8",
        Method::Get,
        Hop(301, b"/\xff", Seen::Refused(RequestError::Malformed)),
    ),
    (
        "refused_location_utf_8_cut_off",
        Method::Get,
        Hop(301, b"/\xc3", Seen::Refused(RequestError::Malformed)),
    ),
    (
        "refused_location_utf_8_too_long",
        Method::Get,
        Hop(301, b"/\xc0\xaf", Seen::Refused(RequestError::Malformed)),
    ),
    (
        "refused_location_surrogate",
        Method::Get,
        Hop(
            301,
            b"/\xed\xa0\x80",
            Seen::Refused(RequestError::Malformed),
        ),
    ),
    (
        "refused_location_https_with_a_user_and_a_byte_of_no_utf_8",
        Method::Get,
        Hop(
            301,
            b"https://u@x/\xff",
            Seen::Refused(RequestError::Malformed),
        ),
    ),
];

/// Locations that are refused.
pub(crate) fn refused_locations() -> Rows {
    Rows::Led(Given::Nothing, &REFUSED)
}

static CHAINS: [Row; 3] = [
    // rule redirect-private-fields
    Row {
        name: "private_fields_go_to_the_first_endpoint_alone",
        url: "http://127.0.0.1:8080/a",
        given: Given::Chain,
        hops: &[
            Hop(
                307,
                b"/b",
                Seen::Sent(
                    "GET /b HTTP/1.1\r\nHost: 127.0.0.1:8080\r\nUser-Agent: mx/1\r\nAccept: */*\r\nCookie: a=1\r\nX-A: 1\r\n\
                AUTHORIZATION: Basic eDp5\r\nCookie2: 2\r\nauthorization: Basic eDp6\r\ncOOKIE: b=2\r\nProxy-Authorization: 3\r\n\r\n",
                ),
            ),
            // another port
            Hop(
                307,
                b"http://127.0.0.1:8081/",
                Seen::Sent(
                    "GET / HTTP/1.1\r\nHost: 127.0.0.1:8081\r\nUser-Agent: mx/1\r\nAccept: */*\r\nX-A: 1\r\nCookie2: 2\r\n\
                Proxy-Authorization: 3\r\n\r\n",
                ),
            ),
            // where this one led to, and not where the chain began
            Hop(
                307,
                b"/c",
                Seen::Sent(
                    "GET /c HTTP/1.1\r\nHost: 127.0.0.1:8081\r\nUser-Agent: mx/1\r\nAccept: */*\r\nX-A: 1\r\nCookie2: 2\r\n\
                Proxy-Authorization: 3\r\n\r\n",
                ),
            ),
            // another host
            Hop(
                307,
                b"//localhost:8080/",
                Seen::Sent(
                    "GET / HTTP/1.1\r\nHost: localhost:8080\r\nUser-Agent: mx/1\r\nAccept: */*\r\nX-A: 1\r\nCookie2: 2\r\n\
                Proxy-Authorization: 3\r\n\r\n",
                ),
            ),
            // back to the first
            Hop(
                307,
                b"//127.0.0.1:8080/d",
                Seen::Sent(
                    "GET /d HTTP/1.1\r\nHost: 127.0.0.1:8080\r\nUser-Agent: mx/1\r\nAccept: */*\r\nCookie: a=1\r\nX-A: 1\r\n\
                AUTHORIZATION: Basic eDp5\r\nCookie2: 2\r\nauthorization: Basic eDp6\r\ncOOKIE: b=2\r\nProxy-Authorization: 3\r\n\r\n",
                ),
            ),
            // another host and another port
            Hop(
                307,
                b"http://example.com/",
                Seen::Sent(
                    "GET / HTTP/1.1\r\nHost: example.com\r\nUser-Agent: mx/1\r\nAccept: */*\r\nX-A: 1\r\nCookie2: 2\r\n\
                Proxy-Authorization: 3\r\n\r\n",
                ),
            ),
            // the first, written otherwise
            Hop(
                307,
                b"http://127.1:8080/e#f",
                Seen::Sent(
                    "GET /e HTTP/1.1\r\nHost: 127.0.0.1:8080\r\nUser-Agent: mx/1\r\nAccept: */*\r\nCookie: a=1\r\nX-A: 1\r\n\
                AUTHORIZATION: Basic eDp5\r\nCookie2: 2\r\nauthorization: Basic eDp6\r\ncOOKIE: b=2\r\nProxy-Authorization: 3\r\n\r\n",
                ),
            ),
        ],
        ..GET
    },
    Row {
        name: "body_kept_at_308_and_307",
        method: Method::Put,
        hops: &[
            Hop(308, b"/b", Seen::Built),
            Hop(307, b"/c", Seen::Sent(PUT_C_HI)),
        ],
        ..WITH_HI
    },
    Row {
        name: "body_gone_for_good_at_303",
        method: Method::Put,
        hops: &[
            Hop(308, b"/b", Seen::Built),
            Hop(303, b"/b", Seen::Built),
            Hop(307, b"/c", Seen::Sent(GET_C)),
        ],
        ..WITH_HI
    },
];

/// Chains of requests.
pub(crate) fn chains() -> Rows {
    Rows::Any(&CHAINS)
}

/// The statuses that send on.
static SEND_ON: [u16; 5] = [301, 302, 303, 307, 308];

/// What is said where other statuses below 1,000 send on.
pub(crate) fn wrong_statuses() -> Option<&'static str> {
    for status in 0..1_000u16 {
        if is_redirect(status) != SEND_ON.contains(&status) {
            return Some("statuses that send on");
        }
    }
    None
}
