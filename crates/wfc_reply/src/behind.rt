//! The head and the lines of a run, put behind another text.

ghost use Rattle.std.specs.Prelude.{◌<◌, ◌≡◌, ◌≤◌};
ghost use Rattle.wfc_reply.specs.Putting.{PutsBehind};

use crate::putting::{RunWriting, put_search};
use crate::reply::Stop;
use std::alloc::Global;
use std::sync::ledger::{Blank, Ledger};
use wfc_choose::Chooser;
use wfc_outside::{Sink, write_all};
use wfc_problem::Problem;
use wfc_runs::open_search;
use wfc_search::Outcome;

/// Puts this text, and then what `put_run` puts. All memory is taken before the first byte is put, and the sink is not
/// finished.
pub fn put_run_behind<O: Sink, L: Ledger>(
    alloc: Global,
    first: &[u8],
    writing: RunWriting,
    problem: &Problem,
    chooser: Box<dyn Chooser>,
    out: &mut O,
    blank: Blank,
) -> Result<Outcome, Stop>
    requires name { blank.name ≡ L.name }
    requires parts { blank.parts ≡ L.parts }
    requires some { 0 < blank.parts }
    requires side { writing.shape.n ≤ 6 }
    ensures puts { PutsBehind first.now (told chooser).rule writing problem.now (O.seen out.old)
        (O.seen out.new) result }
{
    let mut search = open_search(alloc, problem, chooser, writing.budget)?;
    write_all(out, first)?;
    put_search::<O, L>(writing, problem, &mut search, out, blank)
}
