//! What many rows have in common.

use crate::response::Response;
use mx_types::{Code, Method};

/// A whole response to a GET, without a body.
pub const WHOLE: Response = Response {
    name: "",
    method: Method::Get,
    front: b"",
    unit: b"",
    count: 0,
    end: b"",
    decided: None,
    code: Code::Ok,
    status: 200,
    parts: &[],
    body: b"",
    keep: true,
};

/// Bytes that are no head.
pub const NO_HEAD: Response = Response {
    code: Code::WeirdServerReply,
    status: 0,
    keep: false,
    ..WHOLE
};

/// A head, and what is refused of its body.
pub const NO_BODY: Response = Response {
    status: 200,
    ..NO_HEAD
};

/// A body that has not ended.
pub const SHORT: Response = Response {
    code: Code::PartialFile,
    ..NO_BODY
};

/// More bytes than a response may have.
pub const LARGE: Response = Response {
    code: Code::FilesizeExceeded,
    ..NO_BODY
};

/// A head that is longer than one may be.
pub const LONG_HEAD: Response = Response {
    code: Code::TooLarge,
    ..NO_HEAD
};

/// Framing of a chunked body that is wrong.
pub const BAD_CHUNKS: Response = Response {
    code: Code::RecvError,
    ..NO_BODY
};

/// A transfer coding other than one chunked.
pub const OTHER_CODING: Response = Response {
    code: Code::BadContentEncoding,
    ..NO_BODY
};

/// A body that the end of the input ends.
pub const OPEN: Response = Response {
    keep: false,
    ..WHOLE
};
