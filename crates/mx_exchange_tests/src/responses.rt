//! Responses that more than one file of tests has.

/// 43 bytes, of which the last five are the body.
pub(crate) const COUNTED: &[u8] = b"HTTP/1.1 200 OK\r\nContent-Length: 5\r\n\r\nhello";

/// The head of `COUNTED`, 38 bytes.
pub(crate) const HEAD: &[u8] = b"HTTP/1.1 200 OK\r\nContent-Length: 5\r\n\r\n";

/// 72 bytes, with the body at 54.
pub(crate) const CHUNKED: &[u8] =
    b"HTTP/1.1 200 OK\r\nTransfer-Encoding: chunked\r\n\r\n5;x=y\r\nhello\r\n0\r\nA: b\r\n\r\n";

/// A redirect of 55 bytes.
pub(crate) const FOUND: &[u8] = b"HTTP/1.1 302 Found\r\nLocation: /b\r\nContent-Length: 0\r\n\r\n";

/// One of 68 bytes that keeps the method.
pub(crate) const TEMPORARY: &[u8] =
    b"HTTP/1.1 307 Temporary Redirect\r\nLocation: /c\r\nContent-Length: 0\r\n\r\n";
