//! What takes the ends of URLs.
ghost use Rattle.std.specs.Prelude.{◌≡◌, ℕ, List, [], ◌∷◌, ◌++◌, Option, None, length, IsErr, OnOk};
ghost use Rattle.mx_text.specs.declared.fetched.Fetched.{Fetched as AnEnd};

use crate::end::UrlEnd;
use mx_run_io::Stop;
use mx_text::Fetched;

/// What takes the ends of URLs, in their order.
pub trait TakeEnds {
    /// The ends that it has taken.
    ghost taken: { Self → List AnEnd };

    /// What its output held at first, as far as that is known; `None` where it has none.
    ghost begun: { Self → Option (List ℕ) };

    /// How many ends it has taken.
    fn count(&self) -> usize
        ensures { result ≡ length (taken self.now) };

    /// Takes an end more. An error drops the end.
    fn take(&mut self, end: UrlEnd) -> Result<(), Stop>
        ensures taken { OnOk result (taken self.new ≡ taken self.old ++ end ∷ []) }
        ensures refused { IsErr result → taken self.new ≡ taken self.old }
        ensures begun { begun self.new ≡ begun self.old };

    /// Has a reader see what it has taken, if there is one.
    fn flush(&mut self) -> Result<(), Stop>
        ensures taken { taken self.new ≡ taken self.old }
        ensures begun { begun self.new ≡ begun self.old };
}

/// A list keeps them all.
impl TakeEnds for Vec<Fetched> {
    ghost taken = { λ v. v.items };

    ghost begun = { λ v. None };

    fn count(&self) -> usize {
        self.len()
    }

    fn take(&mut self, end: UrlEnd) -> Result<(), Stop> {
        self.push(end.into_fetched())?;
        Ok(())
    }

    fn flush(&mut self) -> Result<(), Stop> {
        Ok(())
    }
}
