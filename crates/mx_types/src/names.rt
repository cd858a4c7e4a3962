//! The names that a multi handle gives to transfers.

/// The name that a caller gives to a transfer: its handle.
#[derive(Clone, Copy, Default, PartialEq, Eq)]
pub struct HandleId(pub u32);

/// The number of an addition. Tickets only rise: that of an addition is greater than each that was given before it, where
/// older history was retired, too. They begin at 0, or at the ticket given to the multi handle, and end at
/// `GREATEST_TICKET`. A handle that is added again gets another ticket.
#[derive(Clone, Copy, Default, PartialEq, Eq)]
pub struct Ticket(pub u32);
