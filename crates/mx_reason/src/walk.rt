//! The heads at the front of a text.
ghost use Rattle.std.specs.Prelude.{◌≡◌, ◌+◌, ◌↔◌, IsTrue, length, slice_range};
ghost use Rattle.mx_head.specs.Reading.{IsStepOn};
ghost use Rattle.mx_body.specs.Response.{IsInterimStatus};
ghost use Rattle.mx_body.specs.Steps.{IsBehind};
ghost use Rattle.mx_reason.specs.Steps.{IsStepped, IsWalked};

use mx_body::MOST_INTERIM;
use mx_head::{Head, HeadStep, read_head};

/// The status that would leave HTTP (RFC 9110, section 15.2.2).
const SWITCHING_PROTOCOLS: u16 = 101;

/// What follows the interim heads of a text.
#[derive(Clone, Copy)]
pub(crate) enum Walked {
    /// The final head, which ends there.
    Final { head: Head, end: usize },
    /// A head that is refused by its status, which ends there.
    Refused { end: usize },
    /// No whole head. What is there begins at this offset.
    Open { start: usize },
}

/// The result of one head.
#[derive(Clone, Copy)]
enum Step {
    /// It is an interim head, which ends there.
    Passed(usize),
    Stopped(Walked),
}

fn is_interim(status: u16) -> bool
    ensures { IsTrue result ↔ IsInterimStatus status }
{
    100 <= status && status < 200
}

/// The result of the head at `start` by the answer on it, after as many interim heads as have passed.
fn step_by(text: &[u8], start: usize, passed: usize, read: HeadStep) -> Step
    requires behind { IsBehind text.now start passed }
    requires read { IsStepOn (slice_range text.now start (length text.now)) read }
    ensures { IsStepped text.now passed result }
{
    let HeadStep::Head(head) = read else {
        return Step::Stopped(Walked::Open { start });
    };
    let status = head.status();
    let end = start + head.len();
    if !is_interim(status) {
        return Step::Stopped(Walked::Final { head, end });
    }
    if status == SWITCHING_PROTOCOLS || passed == MOST_INTERIM {
        return Step::Stopped(Walked::Refused { end });
    }
    Step::Passed(end)
}

/// The result of the head at `start`.
fn step_at(text: &[u8], start: usize, passed: usize) -> Step
    requires { IsBehind text.now start passed }
    ensures { IsStepped text.now passed result }
{
    step_by(text, start, passed, read_head(&text[start..]))
}

/// What follows the interim heads at the front of the text.
pub(crate) fn walk(text: &[u8]) -> Walked
    ensures { IsWalked text.now result }
{
    let mut start = 0;
    let mut passed = 0;
    loop {
        match step_at(text, start, passed) {
            Step::Passed(end) => {
                start = end;
                passed += 1;
            }
            Step::Stopped(walked) => return walked,
        }
    }
}
