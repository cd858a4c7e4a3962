use std::collections::LinkedList;

/// A progress word that was noted or read for a slot. It exists in contracts alone.
pub struct Note {
    pub slot: u8,
    pub word: u64,
}

/// What a note seat has noted and read, how many of the table's seats are joined in it, and how many there are. It exists in contracts
/// alone.
pub struct NoteView {
    pub seats: u64,
    pub joined: u64,
    pub noted: LinkedList<Note>,
    pub read: LinkedList<Note>,
}
