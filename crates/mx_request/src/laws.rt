//! What holds of the bytes of every request that is built. Each law is the contract of a function that does
//! nothing.
ghost use Rattle.mx_request.specs.Laws as law;
ghost use Rattle.mx_request.specs.Redirects.{PrivateStaysHome, EveryHeadIsClean, ChainKeeps, NextIsRequest};

/// The head that goes out has no byte below 32 and no 127, but for the CR LF of its lines and HTAB in values
/// (RFC 9112, section 2.2; RFC 9110, section 5.5): nothing that a caller hands in can add a line.
pub fn head_is_clean()
    ensures { law.HeadIsClean }
{}

/// CR LF CR LF ends the head and is nowhere before its end, so every reader finds the same end.
pub fn empty_line_ends_head()
    ensures { law.EmptyLineEndsHead }
{}

/// Split at CR LF, the head is exactly its request line, the host, the other fields in order and the empty
/// line (RFC 9112, section 2.1).
pub fn head_splits_into_lines()
    ensures { law.HeadSplitsIntoLines }
{}

/// Equal bytes come only from the same method, target, host, field lines as sent and body. A caller's own
/// `Accept: */*` in first place sends what no such field sends.
pub fn equal_bytes_are_sent_alike()
    ensures { law.EqualBytesAreSentAlike }
{}

/// The target begins with `/` (RFC 9112, section 3.2.1).
pub fn target_begins_with_slash()
    ensures { law.TargetBeginsWithSlash }
{}

/// Requests of one origin are the same in all that contracts see of them, and so are those that follow them.
pub fn origin_is_whole_request()
    ensures { law.OriginIsWholeRequest }
{}

/// No line of Authorization or Cookie, in any letter case, is in the head of a request to another endpoint than the first of its chain.
pub fn private_stays_home()
    ensures { PrivateStaysHome }
{}

/// What `head_is_clean` and `empty_line_ends_head` say holds for every request, also for one that follows another.
pub fn every_head_is_clean()
    ensures { EveryHeadIsClean }
{}

/// What follows a request keeps the first endpoint of its chain, how long it may take, and how many redirects are followed.
pub fn chain_keeps()
    ensures { ChainKeeps }
{}

/// What is built is a request as any other, so the laws of every request hold of it.
pub fn built_is_request()
    ensures { law.BuiltIsRequest }
{}

/// What follows a request, with a URL as the parser makes them, is a request as any other.
pub fn next_is_request()
    ensures { NextIsRequest }
{}
