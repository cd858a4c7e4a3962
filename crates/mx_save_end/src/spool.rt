//! Bodies that are written to parts while they come.
ghost use Rattle.std.specs.Prelude.{◌≡◌, ◌++◌, ◌∷◌, [], false, true, None, IsSome, IfSome};
ghost use Rattle.mx_folder.specs.declared.steps.FolderCall.TheVariants as calls;
ghost use Rattle.mx_save.specs.PartSinks.{got_of, part_with};
ghost use Rattle.mx_sink.specs.Outlets.{handed_of};

use mx_chain::Outcome;
use mx_folder::{Folder, FolderError, PartFile};
use mx_save::{Made, PartSink, Unfinished};
use mx_sink::{Outlet, Sink, Window};

/// Where the body of a URL goes as it comes: to a part in the folder.
pub type Spool<F> = Outlet<PartSink<Made<<F as Folder>::Part>>>;

/// The part of a transfer that has ended.
#[derive(Drop)]
pub struct Written<P> {
    pub part: P,
    /// Why it refused a write, if it did.
    pub refused: Option<FolderError>,
    /// Whether it has all content that was handed on.
    pub is_all: bool,
}

// Puts these bytes into a sink, until it has all, or its part has refused a write. The answer is whether it has all.
fn put_all<P: PartFile>(sink: &mut PartSink<P>, bytes: &[u8]) -> bool
    ensures all { result ≡ true → got_of sink.new ≡ got_of sink.old ++ bytes.now }
    ensures refused { result ≡ false → IsSome sink.new.failure }
{
    let mut put = 0;
    while put < bytes.len() {
        match sink.put(&bytes[put..]) {
            Ok(n) => put += n,
            Err(_) => return false,
        }
    }
    true
}

// Hands a sink what its outlet had no room for. The answer is the sink, and whether it has all.
fn hand_all<P: PartFile>(outlet: Outlet<PartSink<P>>, rest: Window) -> (PartSink<P>, bool)
    ensures all { result.1 ≡ true → got_of result.0 ≡ handed_of got_of outlet ++ rest.items }
    ensures refused { result.1 ≡ false → IsSome result.0.failure }
{
    let (mut sink, left) = outlet.into_parts();
    let is_all = put_all(&mut sink, &left) && put_all(&mut sink, rest.as_slice());
    drop(left);
    drop(rest);
    (sink, is_all)
}

// The part of a sink, with all that this took, unless a write is refused.
fn finished<P: PartFile>(sink: PartSink<P>, has_all: bool) -> Written<P>
    requires { has_all ≡ false → IsSome sink.failure }
    ensures all { result.is_all ≡ true → (has_all ≡ true) × (P.value result.part ≡ part_with sink.name (got_of sink) None) }
    ensures whole { result.refused ≡ None → result.is_all ≡ true }
    ensures refused { IfSome result.refused (λ e. (P.value result.part).refused ≡ (calls.Append, e) ∷ []) }
{
    match sink.finish() {
        Ok(part) => Written {
            part,
            refused: None,
            is_all: has_all,
        },
        Err(Unfinished { part, error }) => Written {
            part,
            refused: Some(error),
            is_all: false,
        },
    }
}

/// Writes what is left of the content of a transfer that has ended to its part, and hands the part back. It has all content that was handed
/// on, unless it refuses a write, or refused one before.
pub fn written_of<P: PartFile>(outcome: Outcome<Outlet<PartSink<P>>>) -> Written<P>
    ensures all { result.is_all ≡ true → P.value result.part ≡ part_with (P.value result.part).name outcome.content None }
    ensures whole { result.refused ≡ None → result.is_all ≡ true }
    ensures refused { IfSome result.refused (λ e. (P.value result.part).refused ≡ (calls.Append, e) ∷ []) }
{
    let (outlet, rest) = outcome.into_delivery();
    let (sink, has_all) = hand_all(outlet, rest);
    finished(sink, has_all)
}
