//! The place of a byte in a head.
ghost use Rattle.std.specs.Prelude.{◌≡◌};
ghost use Rattle.mx_reason.specs.Lines.{line_after, line_behind, is_behind};

/// The place of the next byte in a head.
#[derive(Clone, Copy)]
enum Line {
    /// Before its status line.
    Before,
    /// In its status line.
    Within,
    /// After that.
    Behind,
}

impl Line {
    fn after(self, b: u8) -> Line
        ensures { result ≡ line_after self b }
    {
        match self {
            Line::Before if b == b'\r' || b == b'\n' => Line::Before,
            Line::Within if b == b'\n' => Line::Behind,
            Line::Behind => Line::Behind,
            _ => Line::Within,
        }
    }
}

/// Whether a byte after these is after the status line.
pub(crate) fn is_behind_status(text: &[u8]) -> bool
    ensures { result ≡ is_behind (line_behind text.now) }
{
    let mut line = Line::Before;
    for b in text {
        line = line.after(*b);
    }
    matches!(line, Line::Behind)
}
