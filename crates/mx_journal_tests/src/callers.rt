//! Callers of the control core, by the contracts of its calls alone.
ghost use Rattle.std.specs.Prelude.{◌≡◌, ◌<◌};
ghost use Rattle.mx_journal.specs.History.{added, running, waiting};
ghost use Rattle.mx_journal.specs.Answers.{next_ticket, state_of};
ghost use Rattle.mx_journal.specs.Core.{with_out};

use mx_journal::laws::retiring_keeps;
use mx_journal::{Control, RetireReply};
use mx_types::{Ending, HandleId, State, Work};

/// Claims the work of the lowest ticket in the queue, and gives it back: the control state is as it was. Of the claims that are
/// out 2^64 - 1 at most are counted, so that at so many the count is one less then.
pub fn claim_and_give_back<Q: Work + Drop, O: Ending + Drop>(control: &mut Control<Q, O>)
    ensures same { control.new ≡ with_out control.new.out control.old }
    ensures out { control.old.out < 18446744073709551615 → control.new.out ≡ control.old.out }
{
    control.sound();
    Control::<Q, O>::give_back_undoes_claim();
    if let Some((claim, work)) = control.claim() {
        let _ = control.give_back(claim, work);
    }
}

/// Retires, or is refused: the state of the handle then. Either way the state is as before, the same handles are added, in the same order,
/// the same transfers run, the same messages wait, and the next ticket is the one that it was.
pub fn retire_and_see<Q: Work + Drop, O: Ending + Drop>(
    control: &mut Control<Q, O>,
    handle: HandleId,
) -> State
    ensures state { result ≡ state_of handle control.old.journal }
    ensures added { added control.new.journal ≡ added control.old.journal }
    ensures running { running control.new.journal ≡ running control.old.journal }
    ensures waiting { waiting control.new.journal ≡ waiting control.old.journal }
    ensures next { next_ticket control.new.opening control.new.journal ≡ next_ticket control.old.opening control.old.journal }
    ensures work { control.new.queue ≡ control.old.queue }
    ensures endings { control.new.endings ≡ control.old.endings }
{
    control.sound();
    retiring_keeps();
    match control.retire() {
        RetireReply::Retired(_) => control.state(handle),
        RetireReply::ClaimOut => control.state(handle),
    }
}
