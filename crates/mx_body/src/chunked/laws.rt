//! Laws of the definitions of chunked bodies: each function does nothing, and its contract is the law.

ghost use Rattle.mx_body.specs.ChunkedLaws.{OneBodyPerText, OneReadingPerText, PartsAreData, BodyIsSound, LargeMayBecome, OneScanPerInput, RfcIsChunked, ChunkedIsRfc, NoBareLfInSizeLine, CrlfBehindData, BareLfExamples, DoneIsWhole, WholeIsDone, OpenIsUndecided, BadIsNoBody, TooLargeIsLarge};

/// Two chunked bodies of which one is a prefix of the other are equal, with the same parts and the same data.
pub fn chunked_is_one()
    ensures tree { OneBodyPerText }
    ensures reading { OneReadingPerText }
{}

/// The parts of a chunked body lie within it, in order, none is empty, and joined they are its data.
pub fn parts_are_data()
    ensures { PartsAreData }
{}

/// No prefix of a chunked body within the limit is bad or too large, and what is too large is not bad.
pub fn chunked_is_sound()
    ensures body { BodyIsSound }
    ensures large { LargeMayBecome }
{}

/// An input has one answer of `scan_chunked`.
pub fn one_scan()
    ensures { OneScanPerInput }
{}

/// The chunked bodies of the standard's own grammar are among those read here, and they are the ones whose
/// extensions and trailers are the standard's (RFC 9112, section 7.1).
pub fn rfc_chunked_is_chunked()
    ensures there { RfcIsChunked }
    ensures back { ChunkedIsRfc }
{}

/// The framing of a chunked body has no bare LF, and no data without its CRLF.
pub fn framing_is_strict()
    ensures size_line { NoBareLfInSizeLine }
    ensures behind_data { CrlfBehindData }
    ensures examples { BareLfExamples }
{}

/// What the places of a reader (`place::ChunkedPlace`) say of the bytes read, whatever the pieces they came in: a body with its parts, a prefix of
/// one, no prefix of one, or one with a size over the limit.
pub fn places_tell()
    ensures done { DoneIsWhole }
    ensures whole { WholeIsDone }
    ensures open { OpenIsUndecided }
    ensures bad { BadIsNoBody }
    ensures too_large { TooLargeIsLarge }
{}
