//! Bytes that more than one row has, or that a test takes by their name.

/// 43 bytes, of which the last five are the body.
pub const COUNTED: &[u8] = b"HTTP/1.1 200 OK\r\nContent-Length: 5\r\n\r\nhello";

/// The head of `COUNTED`, 38 bytes.
pub const HEAD: &[u8] = b"HTTP/1.1 200 OK\r\nContent-Length: 5\r\n\r\n";

/// 72 bytes, with the body at 54.
pub const CHUNKED: &[u8] =
    b"HTTP/1.1 200 OK\r\nTransfer-Encoding: chunked\r\n\r\n5;x=y\r\nhello\r\n0\r\nA: b\r\n\r\n";

/// 28 bytes.
pub const HINTS: &[u8] = b"HTTP/1.1 103 Early Hints\r\n\r\n";

/// 27 bytes.
pub const NO_CONTENT: &[u8] = b"HTTP/1.1 204 No Content\r\n\r\n";
