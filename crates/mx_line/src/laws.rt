//! What holds of every link that serves a request. A law is a function that does nothing: its contract is the law.
ghost use Rattle.mx_line.specs.Laws.{TakenIsTheFront};

/// What a link has taken is a prefix of the request, and the whole of it once the link was read.
pub fn request_is_taken_from_the_front()
    ensures { TakenIsTheFront }
{}
