//! What every legal history keeps. Each law is the contract of a function that does nothing: a caller that calls it
//! may use it in its own proof.
ghost use Rattle.mx_history.specs.Laws.{AdditionTakesLeastSlot, AnswerIsLegal, AnswersFit, CallAddsAtMostOne, CallIsPlaced, ClosingFindsRoom, EachAtMostOnce, EachOnceByCount, FirstInFirstOut, FirstIsPlaced, FitsByItsCut, LegalIsTidy, NeverRunsAgain, NothingAfterRemoval, PlacedStays, PrefixIsLegal, ReadyStays, RetiringKeeps, SlotStays, SlotsDiffer, StateAndLookAgree, TableFollows};

/// A prefix of a legal history is legal.
pub fn prefix_is_legal()
    ensures { PrefixIsLegal }
{}

/// The event of an answer is legal, and leaves room for what is then due.
pub fn answer_is_legal()
    ensures { AnswerIsLegal }
{}

/// An end, a reading and a removal always find room.
pub fn closing_finds_room()
    ensures { ClosingFindsRoom }
{}

/// Each ticket is added, ended, read and removed at most once: at most one message, read at most once.
pub fn each_at_most_once()
    ensures { EachAtMostOnce }
{}

/// After its removal a ticket has no event: no message, and none is read.
pub fn nothing_after_removal()
    ensures { NothingAfterRemoval }
{}

/// A ticket that was given, and doesn't run, never runs again: it ended or was removed.
pub fn never_runs_again()
    ensures { NeverRunsAgain }
{}

/// At most 256 handles are added, each once, by rising tickets; each message that waits is of one of them, and
/// waits once.
pub fn legal_is_tidy()
    ensures { LegalIsTidy }
{}

/// First in, first out: the messages that were read, and then those that wait, are of the ends in their order,
/// without those that were removed unread.
pub fn first_in_first_out()
    ensures { FirstInFirstOut }
{}

/// The state of an added handle and what a worker sees of its ticket agree.
pub fn state_and_look_agree()
    ensures { StateAndLookAgree }
{}

/// A poll that may return may return later too.
pub fn ready_stays()
    ensures { ReadyStays }
{}

/// The slots of added handles are below 256 and differ.
pub fn slots_differ()
    ensures { SlotsDiffer }
{}

/// An added handle's ticket keeps its slot until it is removed.
pub fn slot_stays()
    ensures { SlotStays }
{}

/// An addition takes the least slot that no added handle has.
pub fn addition_takes_least_slot()
    ensures { AdditionTakesLeastSlot }
{}

/// Whether a receipt fits depends on the events before its cut alone: later ones change nothing.
pub fn fits_by_its_cut()
    ensures { FitsByItsCut }
{}

/// Each once, by count: where the cuts of a maker's receipts with an event rise, an event of that maker is before each, and they are as
/// many as the maker's events, they are these events, each once, in order.
pub fn each_once_by_count()
    ensures { EachOnceByCount }
{}

/// What a call of the core promises of its answer is what makes a receipt fit, with its cut at the journal's end.
pub fn answers_fit()
    ensures { AnswersFit }
{}

/// The table takes in what may follow.
pub fn table_follows()
    ensures { TableFollows }
{}

/// A call leaves the journal, or adds one event, the caller's.
pub fn call_adds_at_most_one()
    ensures { CallAddsAtMostOne }
{}

/// Receipts stay placed as the journal grows by the events of others.
pub fn placed_stays()
    ensures { PlacedStays }
{}

/// A call that is answered is placed after the earlier receipts.
pub fn call_is_placed()
    ensures { CallIsPlaced }
{}

/// What retiring keeps of a legal history is one, with the same handles added, running, paused and done, and the same
/// messages waiting.
pub fn retiring_keeps()
    ensures { RetiringKeeps }
{}

/// Before its first call a caller is placed in the history that was kept.
pub fn first_is_placed()
    ensures { FirstIsPlaced }
{}
