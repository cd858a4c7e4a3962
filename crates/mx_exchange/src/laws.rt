//! What holds of every hop, and of every exchange's life. Each law is a function that does nothing: its contract is the law.
ghost use Rattle.mx_exchange.specs.Laws.{OkHasBody, OkHasContent, HeldHasAll, CodesAreListed, DropsOnce};

use mx_link::Link;

/// With code 0 the first bytes of the wire are a response, and the bytes at the parts, joined, and then what was handed on are its content.
pub fn ok_has_body()
    ensures { OkHasBody }
{}

/// With code 0 the first bytes of the wire of a response that is held are a response, and the bytes at the parts, joined, are its content.
pub fn ok_has_content()
    ensures { OkHasContent }
{}

/// Of a response that is held nothing is handed on, and memory has all its bytes.
pub fn held_has_all()
    ensures { HeldHasAll }
{}

/// A hop's code is `Ok`, a fault of the bytes of a response, one of a link or of memory, or that of a deadline.
pub fn codes_are_listed()
    ensures { CodesAreListed }
{}

/// An exchange drops at most one link for a fresh one, and so tries its request again at most once.
pub fn link_is_dropped_once<L: Link>()
    ensures { DropsOnce L.history }
{}
