//! What calls on a multi handle answer, as numbers.
ghost use Rattle.std.specs.Prelude.{◌≡◌};
ghost use Rattle.mx_types.specs.MultiCode.{multi_number};

/// What a call on a multi handle answers, after libcurl's `CURLMcode` (libcurl-errors(3)).
#[derive(Clone, Copy)]
pub enum MCode {
    /// 0: all is well.
    Ok,
    /// 3: a growth was refused.
    OutOfMemory,
    /// 7: the handle is added already.
    AddedAlready,
    /// 9: there is no room for a wakeup.
    WakeupFailure,
    /// 100, this engine's own: as many handles are added as can be.
    TableFull,
    /// 101, this engine's own: the history has no room.
    HistoryFull,
    /// 102, this engine's own: the transfer is done.
    NotRunning,
    /// 103, this engine's own: the handle isn't added.
    NotAdded,
    /// 104, this engine's own: each ticket was given.
    TicketsSpent,
}

impl MCode {
    /// The code's number: libcurl's, and from 100 on this engine's own.
    pub fn number(self) -> u32
        ensures { result ≡ multi_number self }
    {
        match self {
            MCode::Ok => 0,
            MCode::OutOfMemory => 3,
            MCode::AddedAlready => 7,
            MCode::WakeupFailure => 9,
            MCode::TableFull => 100,
            MCode::HistoryFull => 101,
            MCode::NotRunning => 102,
            MCode::NotAdded => 103,
            MCode::TicketsSpent => 104,
        }
    }
}
