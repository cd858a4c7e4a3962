//! An exchange before its end, and after it.
ghost use Rattle.std.specs.Prelude.{◌≡◌, [], None, IfSome, false, length};
ghost use Rattle.mx_body.specs.Decision.{HasStatus};
ghost use Rattle.mx_types.specs.declared.code.Code.TheVariants as code;
ghost use Rattle.mx_exchange.specs.Exchanges.{capped};
ghost use Rattle.mx_line.specs.Lines.{IsGoing, MayHandOut};
ghost use Rattle.mx_exchange.specs.Hops.{MayEnd};
ghost use Rattle.mx_exchange.specs.Stages.{limit_by, link_of, answers_of, reused_of, code_of};

use crate::handling::Handling;
use crate::hops::Hop;
use mx_line::Line;
use mx_link::{Answer, Link};
use mx_reader::Reader;
use mx_request::Request;
use mx_types::{Code, History};
use std::alloc::Global;
use std::mem;
use std::snapshot::Snapshot;

/// A request, the reader of its response, and the link that serves it, if one does.
#[derive(Drop)]
pub(super) struct Live<L: Link> {
    pub(super) request: Request,
    pub(super) reader: Reader,
    pub(super) line: Option<Line<L>>,
}

/// What is left once it has ended: its code, how many bytes came, its link until that is handed out, and whether it may be.
#[derive(Drop)]
pub(super) struct Ended<L: Link> {
    pub(super) code: Code,
    pub(super) received: u32,
    pub(super) line: Option<Line<L>>,
    pub(super) is_kept: bool,
}

/// An exchange goes on, or has ended.
#[derive(Drop)]
pub(super) enum Stage<L: Link> {
    Live(Live<L>),
    Ended(Ended<L>),
}

impl<L: Link> Live<L> {
    pub fn new(alloc: Global, request: Request, handling: Handling) -> Live<L>
        ensures request { result.request ≡ request }
        ensures limit { result.reader.limit ≡ limit_by handling }
        ensures begins { (result.reader.wire ≡ []) × (result.reader.judgement.content ≡ []) }
        ensures going { IsGoing request.method [] result.reader }
        ensures line { result.line ≡ None }
    {
        let reader = handling.reader(alloc, request.method());
        Live {
            request,
            reader,
            line: None,
        }
    }

    /// What its link answered, for contracts alone.
    pub fn answers(&self) -> Snapshot<History<Answer>>
        ensures { result.value ≡ answers_of self.now.line }
    {
        match &self.line {
            Some(line) => line.answers(),
            None => Snapshot::of(&History::new()),
        }
    }

    /// Whether its link was in use before, for contracts alone.
    pub fn reused(&self) -> Snapshot<bool>
        ensures { result.value ≡ reused_of self.now.line }
    {
        match &self.line {
            Some(line) => Snapshot::of(&line.is_reused()),
            None => Snapshot::of(&false),
        }
    }
}

impl<L: Link> Ended<L> {
    /// The link, which may serve again.
    pub fn take_link(&mut self) -> Option<L>
        requires { IfSome self.old.line MayHandOut }
        ensures link { result ≡ link_of self.old.line }
        ensures rest { self.new ≡ record self.old { line = None; is_kept = false } }
    {
        self.is_kept = false;
        match self.line.take() {
            Some(line) => Some(line.into_link()),
            None => None,
        }
    }
}

impl<L: Link> Stage<L> {
    ghost use Rattle.mx_exchange.specs.declared.exchanges.stages.Stage.TheVariants as stage;

    /// The placeholder of a stage while a turn has it.
    pub fn gone() -> Stage<L>
        ensures { result ≡ stage.Ended (record { code = code.Ok; received = 0; line = None; is_kept = false }) }
    {
        Stage::Ended(Ended {
            code: Code::Ok,
            received: 0,
            line: None,
            is_kept: false,
        })
    }

    /// Takes out what goes on, and leaves the placeholder.
    pub fn take_live(&mut self) -> Live<L>
        requires { code_of self.old ≡ None }
        ensures live { self.old ≡ stage.Live result }
        ensures gone { self.new ≡ stage.Ended (record { code = code.Ok; received = 0; line = None; is_kept = false }) }
    {
        match mem::replace(self, Stage::gone()) {
            Stage::Live(live) => live,
            Stage::Ended(_) => unreachable!(),
        }
    }
}

/// The greatest count.
const MOST_COUNTED: u64 = 4_294_967_295;

/// How many bytes of a response came, held at the greatest number of 32 bits.
pub(super) fn received(reader: &Reader) -> u32
    ensures { result ≡ capped (length reader.now.wire) }
{
    reader.received().min(MOST_COUNTED) as u32
}

/// The hop of an exchange whose link gave these answers.
pub(super) fn end(
    request: Request,
    reader: Reader,
    code: Code,
    answers: Snapshot<History<Answer>>,
    is_reused: Snapshot<bool>,
) -> Hop
    requires { MayEnd request is_reused.value answers.value reader code }
    ensures request { result.request ≡ request }
    ensures limit { result.limit ≡ reader.limit }
    ensures wire { result.wire ≡ reader.wire }
    ensures code { result.code ≡ code }
    ensures status { HasStatus result.wire result.status }
    ensures parts { result.parts ≡ reader.judgement.parts }
    ensures content { result.content ≡ reader.judgement.content }
    ensures answers { result.answers ≡ answers.value }
    ensures reused { result.is_reused ≡ is_reused.value }
{
    // proof: what holds of a request, and of a reader
    request.know();
    reader.know();
    let why = reader.why();
    let status = reader.status();
    let location = reader.location();
    let read = Snapshot::of(&reader);
    let (kept, parts) = reader.into_parts();
    Hop::new(
        request, read, kept, code, status, parts, location, why, answers, is_reused,
    )
}
