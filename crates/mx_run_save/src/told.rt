//! What a caller of a run may conclude of what it left.
ghost use Rattle.std.specs.Prelude.{ℕ, List, Option};
ghost use Rattle.mx_folder.specs.declared.steps.Step.{Step};
ghost use Rattle.mx_command.specs.declared.save.Save.{Save};
ghost use Rattle.mx_save_rules.specs.declared.asking.Asking.{Asking};
ghost use Rattle.mx_run_save.specs.Saved.{TellsOfFolder};
ghost use Rattle.mx_run_save.specs.Told.{LeavesTruly};

use crate::run::Saved;
use mx_folder::Folder;
use std::io::Write;

impl<F: Folder, W: Write> Saved<F, W> {
    // rule save-each-once
    /// What holds of each URL that a run reported, also where the run has stopped: what was reported is so, and of one that was reported as
    /// saved the whole body of a response to the last request of its chain is under that name. And at each moment each name of a file held
    /// such a body, or what it held before the run; so it is after a loss of power, where bodies are flushed; and no part is left but those
    /// that the folder refused to remove. It does nothing: a call gives its caller's proof the law.
    pub fn each_is_there(&self)
        ensures { (save : Save) (asking : Asking) (given : Option (List (List ℕ))) (old : List Step)
            → TellsOfFolder save asking given old (F.steps self.now.folder) self.now.lines
            → LeavesTruly save asking given old (F.steps self.now.folder) self.now.lines.told }
    {}
}
