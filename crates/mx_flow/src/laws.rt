//! Laws of the definitions. The functions do nothing: a call gives its caller's proof the law.

ghost use Rattle.mx_flow.specs.Laws.{WholeHasAll, OnlyGrows, IsFrontOfEach};
ghost use Rattle.mx_flow.specs.Responses.{IsFrontOfEachResponse, IsAllOfOne, MakesResponse, AreTheResponses};
ghost use Rattle.mx_flow.specs.Streams.{HasOneStream};

/// The content of a body that has come so far is a prefix of its content, and all of it once the body is whole.
pub fn content_comes_in_order()
    ensures all { WholeHasAll }
    ensures grows { OnlyGrows }
    ensures front { IsFrontOfEach }
{}

/// The content of a response that has come so far is a prefix of the content of each response that the bytes may still become, and all of it
/// once they are one. Within the limits of `mx_body` these are its responses.
pub fn content_of_responses()
    ensures front { IsFrontOfEachResponse }
    ensures all { IsAllOfOne }
    ensures makes { MakesResponse }
    ensures same { AreTheResponses }
{}

/// Two streams of one method and limit to which the same bytes came have the same heads, content and state, however the bytes were cut into
/// pieces.
pub fn bytes_decide()
    ensures { HasOneStream }
{}
