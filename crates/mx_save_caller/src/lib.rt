//! A caller of a run that saves, with no proof of its own: of each URL that was reported, and of the folder, it concludes what was promised.
#![tactic(auto)]

ghost use Rattle.std.specs.Prelude.{◌≡◌, [], OnOk};
ghost use Rattle.mx_command.specs.Saving.{AreSaveNumbers};
ghost use Rattle.mx_save_urls.specs.Feeds.{list_left};
ghost use Rattle.mx_run_save.specs.Saved.{SavesIn, urls_of};
ghost use Rattle.mx_run_save.specs.Told.{LeavesTruly};

use mx_command::Save;
use mx_crew::Runtime;
use mx_folder::Folder;
use mx_run_save::{Saved, save_in};
use mx_save_book::{Asking, Lines};
use mx_save_rules::UrlList;
use mx_save_urls::Watch;
use std::io::{Read, Write};
use std::net::{Net, TcpListener, TcpStream};

/// Saves in a folder. What was reported of each URL is so, whether the run has stopped or not: of one that was reported as saved the whole body
/// of a response to the last request of its chain is under that name. At each moment each name of a file holds such a body, or what it held
/// before the run; so it is after a loss of power, where bodies are flushed; and no part is left but those that the folder refused to remove.
/// Unless the run stopped, each URL has ended and was reported once.
pub fn save_and_know<
    R: Runtime + Net<Listener = TcpListener, Stream = TcpStream>,
    F: Folder,
    W: Write + Drop,
    Rd: Read + Drop,
    V: Watch + Drop,
>(
    rt: &R,
    save: &Save<'_>,
    process: u32,
    asking: Asking,
    list: Option<Box<UrlList<Rd>>>,
    folder: F,
    lines: Lines<W>,
    watch: V,
) -> Saved<F, W>
where
    F::Part: Send,
    requires numbers { AreSaveNumbers save.now.numbers }
    requires fresh { lines.told ≡ [] }
    ensures left { LeavesTruly save.now asking (urls_of save.now (list_left Rd.remaining list)) (F.steps folder) (F.steps result.folder) result.lines.told }
    ensures once { OnOk result.stopped (SavesIn save.now asking (urls_of save.now (list_left Rd.remaining list))
        (F.steps folder) (F.steps result.folder) result.lines.told) }
{
    let saved = save_in(rt, save, process, asking, list, folder, lines, watch);
    // proof: what holds of each URL that was reported, and of the folder
    saved.each_is_there();
    saved
}
