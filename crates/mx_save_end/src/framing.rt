//! How the length of a body was determined.
ghost use Rattle.std.specs.Prelude.{◌≡◌, ◌↔◌, IsTrue, length, slice_range};
ghost use Rattle.mx_head.specs.Reading.{IsStepOn};
ghost use Rattle.mx_body.specs.Response.{IsInterimStatus};
ghost use Rattle.mx_body.specs.Steps.{IsBehind};
ghost use Rattle.mx_save_end.specs.Framings.{IsStepped, TellsFraming, word_of};

use mx_body::MOST_INTERIM;
use mx_chain::Outcome;
use mx_head::{Framing, HeadStep, framing, read_head};
use mx_save_rules::FramingWord;
use mx_sink::Delivery;
use mx_text::last_method;
use mx_types::{Code, Method};

/// 101 Switching Protocols (RFC 9110, section 15.2.2): after it the connection speaks another protocol.
const SWITCHING_PROTOCOLS: u16 = 101;

/// The result of one head.
#[derive(Clone, Copy)]
enum Step {
    /// It is an interim head, which ends there.
    Passed(usize),
    /// It is the final head, with the framing of its body, if it has one; or there is no final head.
    Stopped(Option<FramingWord>),
}

fn word(found: Result<Framing, Code>) -> Option<FramingWord>
    ensures { result ≡ word_of found }
{
    match found {
        Ok(Framing::Empty) => None,
        Ok(Framing::Counted(_)) => Some(FramingWord::Length),
        Ok(Framing::Chunked) => Some(FramingWord::Chunked),
        Ok(Framing::Close) => Some(FramingWord::Close),
        Err(_) => None,
    }
}

fn is_interim(status: u16) -> bool
    ensures { IsTrue result ↔ IsInterimStatus status }
{
    100 <= status && status < 200
}

// The result of the head at `start`, which was read as `read`, after `passed` interim heads.
fn step_by(method: Method, wire: &[u8], start: usize, passed: usize, read: HeadStep) -> Step
    requires behind { IsBehind wire.now start passed }
    requires read { IsStepOn (slice_range wire.now start (length wire.now)) read }
    ensures { IsStepped method wire.now passed result }
{
    match read {
        HeadStep::Head(head) => {
            let status = head.status();
            if !is_interim(status) {
                return Step::Stopped(word(framing(method, &head)));
            }
            if status == SWITCHING_PROTOCOLS || passed == MOST_INTERIM {
                return Step::Stopped(None);
            }
            Step::Passed(start + head.len())
        }
        HeadStep::More => Step::Stopped(None),
        HeadStep::Fault(_) => Step::Stopped(None),
    }
}

// The result of the head at `start`.
fn step_at(method: Method, wire: &[u8], start: usize, passed: usize) -> Step
    requires { IsBehind wire.now start passed }
    ensures { IsStepped method wire.now passed result }
{
    step_by(method, wire, start, passed, read_head(&wire[start..]))
}

// The framing of the final head of these bytes.
fn framing_in(method: Method, wire: &[u8]) -> Option<FramingWord>
    ensures { TellsFraming method wire.now result }
{
    let mut start = 0;
    let mut passed = 0;
    loop {
        match step_at(method, wire, start, passed) {
            Step::Passed(end) => {
                start = end;
                passed += 1;
            }
            Step::Stopped(told) => return told,
        }
    }
}

/// How the length of a response's body is determined, by the request's method and the final head (RFC 9112, section 6.3); `None` if it has no
/// body, its framing is refused, or there is no final head.
pub(crate) fn framing_of<D: Delivery>(outcome: &Outcome<D>) -> Option<FramingWord>
    ensures { TellsFraming outcome.now.last.request.method outcome.now.wire result }
{
    framing_in(last_method(outcome), outcome.heads())
}
