use mx_append_log::CountedMark;
use mx_types::Event;

/// A prefix of a journal that was reached, with the number of its events. It takes no lock and holds no event.
pub type JournalMark = CountedMark<Event>;
