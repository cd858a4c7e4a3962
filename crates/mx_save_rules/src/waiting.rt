//! Who waits until when.
ghost use Rattle.std.specs.Prelude.{◌≡◌, ◌≤◌, ◌↔◌, [], length, IsNone, IfSome, OnOk, OnErr, All, Any};

use std::alloc::{AllocError, AllocFailed, Global};
use std::marker::Model;

/// A job that waits. Its number is the caller's own; moments are milliseconds on whatever clock the caller reads.
#[derive(Clone, Copy)]
pub struct Wait {
    pub moment: u64,
    pub job: u64,
}

/// The jobs that wait. Contracts see them as a list, by moment; of one moment, as they were added.
#[derive(Drop)]
pub struct Waiting {
    waits: Vec<Wait>,
}

impl Model for Waiting {
    ghost use Rattle.std.specs.Prelude.{List};
    ghost use Rattle.mx_save_rules.specs.declared.waiting.Wait.{Wait as OneWait};
    ghost use Rattle.mx_save_rules.specs.Waits.{IsInOrder};

    ghost Value = { List OneWait };

    ghost view = { λ w. w.waits.items };

    ghost invariant = { λ w. IsInOrder w.waits.items };
}

impl Waiting {
    ghost use Rattle.std.specs.Prelude.{count_by, nat_le};
    ghost use Rattle.mx_save_rules.specs.Waits.{IsInOrder, Adds, PopsDue};

    /// No job.
    pub fn new(alloc: Global) -> Waiting
        ensures { result ≡ [] }
    {
        Waiting {
            waits: Vec::new(alloc),
        }
    }

    /// How many jobs wait.
    pub fn len(&self) -> usize
        ensures len { result ≡ length self.now }
        ensures ordered { IsInOrder self.now }
    {
        self.waits.len()
    }

    // How many wait until that moment or an earlier one.
    fn place_of(&self, moment: u64) -> usize
        ensures place { result ≡ count_by (λ w. nat_le w.moment moment) self.now }
    {
        self.waits.iter().filter(|w| w.moment <= moment).count()
    }

    // rule save-waiting
    /// Adds a job that waits until that moment, behind those that wait until then already.
    ///
    /// An error says that memory was refused: nothing changes.
    pub fn add(&mut self, wait: Wait) -> Result<(), AllocError>
        ensures added { OnOk result (Adds self.old self.new wait) }
        ensures ordered { IsInOrder self.new }
        ensures kept { OnErr result (self.new ≡ self.old) }
    {
        let place = self.place_of(wait.moment);
        self.waits.insert(place, wait)?;
        Ok(())
    }

    /// The least moment that a job waits until, if one waits.
    pub fn next(&self) -> Option<u64>
        ensures none { IsNone result ↔ (self.now ≡ []) }
        ensures set { IfSome result (λ moment. Any (λ w. w.moment ≡ moment) self.now) }
        ensures least { IfSome result (λ moment. All (λ w. moment ≤ w.moment) self.now) }
    {
        self.waits.first().map(|w| w.moment)
    }

    // rule save-waiting
    /// Takes out the job that has waited longest of those whose moment isn't after `now`: the one with the least moment, and of these the
    /// one that was added first. `None` where no job's moment has come, and then nothing changes.
    pub fn pop_due(&mut self, now: u64) -> Option<u64>
        ensures popped { PopsDue now self.old result self.new }
        ensures ordered { IsInOrder self.new }
    {
        let first = *self.waits.first()?;
        if first.moment > now {
            return None;
        }
        self.waits.remove(0);
        Some(first.job)
    }
}
