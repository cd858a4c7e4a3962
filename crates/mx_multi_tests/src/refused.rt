//! Scripts whose calls may be refused memory. One that was is made again, and has then to answer as if it had been the first; only then
//! does the test fail, by a text of its own. Without a refusal it passes.

use crate::play::{Script, try_rows};
use crate::rows::{FOUR_SEATS, RETIRINGS, SCRIPTS, SHORT_HISTORY, full_history, full_table};
use std::test::Fail;

/// Each call of each script is answered as its row says, the 257th addition is refused, and so are numbers outside their limits.
#[test]
fn scripts(rt: HostRuntime) -> Result<(), Fail> {
    let steps = full_table(rt.alloc())?;
    let full = Script {
        name: "the_table_has_256_places",
        limits: FOUR_SEATS,
        steps: steps.as_slice(),
    };
    let played = try_rows(&rt, rt.alloc(), &SCRIPTS, full, true);
    drop(steps);
    played
}

/// Old history is retired: what stays, what goes, and what blocks it.
#[test]
fn retirings(rt: HostRuntime) -> Result<(), Fail> {
    let steps = full_history(rt.alloc())?;
    // rule multi-retire
    let full = Script {
        name: "a_full_history_goes_on",
        limits: SHORT_HISTORY,
        steps: steps.as_slice(),
    };
    let played = try_rows(&rt, rt.alloc(), &RETIRINGS, full, false);
    drop(steps);
    played
}
