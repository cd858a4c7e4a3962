//! What holds of everything that is printed. Each law is a function that does nothing: its contract is the law.
ghost use Rattle.mx_text.specs.Laws.{TextsTell};

/// What is printed shows each handle's code, status and body: equal texts come only from as many handles that ended alike, whatever bytes
/// the bodies have.
pub fn texts_tell()
    ensures { TextsTell }
{}
