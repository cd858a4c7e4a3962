//! What becomes of the content of a transfer.
ghost use Rattle.std.specs.Prelude.{◌≡◌, ◌⊎◌, ℕ, true, List, [], ◌++◌, Option, None, IfSome};
ghost use Rattle.mx_types.specs.declared.code.Code.{Code as OneCode};
ghost use Rattle.mx_sink.specs.Outlets.{counted};
ghost use Rattle.mx_sink.specs.Sinks.{is_sink_code};

use crate::window::Window;
use mx_types::Code;

/// What becomes of the content of a response, so that a transfer can be generic in it: the response is held ([`Held`]), or its content is
/// handed on as it comes ([`Outlet`](crate::Outlet)).
pub trait Delivery: Drop {
    /// `None` where the response is held. `Some(most)` where its content is handed on, of at most so many bytes if there is a limit.
    ghost flows: { Self → Option (Option ℕ) };

    /// All content that was handed to it, in order.
    ghost handed: { Self → List ℕ };

    /// The content that it has not passed on yet, in order.
    ghost left: { Self → List ℕ };

    /// The code of its failure, if it failed.
    ghost fault: { Self → Option OneCode };

    /// What it was made for, which no call changes: of a file, its name.
    ghost target: { Self → List ℕ };

    /// `None` where the response is held. `Some(most)` where its content is handed on, of at most so many bytes if there is a limit.
    fn most_bytes(&self) -> Option<Option<u64>>
        ensures { result ≡ flows self.now };

    /// Passes on what is left, as far as that is possible now. The answer is whether it takes content now: then it has not failed, and
    /// nothing is left. Where the response is held, it always does.
    fn make_room(&mut self) -> bool
        ensures ready { result ≡ true → (left self.new ≡ []) × (fault self.new ≡ None) }
        ensures held { flows self.old ≡ None → result ≡ true }
        ensures handed { handed self.new ≡ handed self.old }
        ensures failed { IfSome (fault self.old) (λ _. fault self.new ≡ fault self.old) }
        ensures same { (flows self.new ≡ flows self.old) × (target self.new ≡ target self.old) };

    /// Takes all of the content, which is empty then. Where the content isn't empty, nothing is left, and the response isn't held. Content
    /// that is empty changes nothing.
    fn take(&mut self, content: &mut Window)
        requires clear { (left self.old ≡ []) ⊎ (content.old.items ≡ []) }
        requires flows { flows self.old ≡ None → content.old.items ≡ [] }
        ensures handed { handed self.new ≡ handed self.old ++ content.old.items }
        ensures empty { content.new.items ≡ [] }
        ensures still { content.old.items ≡ [] → self.new ≡ self.old }
        ensures failed { IfSome (fault self.old) (λ _. fault self.new ≡ fault self.old) }
        ensures same { (flows self.new ≡ flows self.old) × (target self.new ≡ target self.old) };

    /// How many bytes of content were handed to it, held at 18,446,744,073,709,551,615.
    fn count(&self) -> u64
        ensures { result ≡ counted (handed self.now) };

    /// The code of its failure, if it failed: 23 or 27. One whose response is held doesn't fail.
    fn fault(&self) -> Option<Code>
        ensures fault { result ≡ fault self.now }
        ensures code { IfSome result (λ code. is_sink_code code ≡ true) }
        ensures held { flows self.now ≡ None → result ≡ None };
}

/// The delivery of a transfer whose response is held: nothing is handed on.
#[derive(Clone, Copy)]
pub struct Held;

impl Delivery for Held {
    ghost flows = { λ h. None };

    ghost handed = { λ h. [] };

    ghost left = { λ h. [] };

    ghost fault = { λ h. None };

    ghost target = { λ h. [] };

    fn most_bytes(&self) -> Option<Option<u64>> {
        None
    }

    fn make_room(&mut self) -> bool {
        true
    }

    fn take(&mut self, _content: &mut Window) {}

    fn count(&self) -> u64 {
        0
    }

    fn fault(&self) -> Option<Code> {
        None
    }
}
