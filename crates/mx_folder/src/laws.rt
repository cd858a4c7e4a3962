//! What holds of every name. Each law is a function that does nothing: its contract is the law.
ghost use Rattle.mx_folder.specs.Laws.{NamesAreSafe, NamesAreDistinct, PartsAreApart};

/// Whatever the text of a URL is, its name is a single segment: it stays in the folder, and hides nothing.
pub fn names_are_safe()
    ensures { NamesAreSafe }
{}

/// Whatever the URLs of a run are, no two of its names are the same.
pub fn names_are_distinct()
    ensures { NamesAreDistinct }
{}

/// The name of a part is none of a file.
pub fn parts_are_apart()
    ensures { PartsAreApart }
{}
