//! The head and the lines of a run, put while it is made.

ghost use Rattle.std.specs.Prelude.{Err, IfOk, OnErr, OnOk, [], ◌<◌, ◌≡◌, ◌≢◌, ◌≤◌};
ghost use Rattle.wfc_outside.specs.Sink.{Puts};
ghost use Rattle.wfc_plan.specs.declared.fault.Fault.{Fault};
ghost use Rattle.wfc_proof.specs.Telling.{IsBare};
ghost use Rattle.wfc_proof.specs.declared.heads.Format.TheVariants.{One, Two};
ghost use Rattle.wfc_reply.specs.Putting.{CutsFrom, PutsFrom, PutsOrStops};
ghost use Rattle.wfc_reply.specs.RunText.{writing_head, written_format};
ghost use Rattle.wfc_reply.specs.declared.reply.Stop.TheVariants.{Unanswered};
ghost use Rattle.wfc_runs.specs.Views.{search_view};
ghost use Rattle.wfc_runs.specs.Words.{words_of_seed};
ghost use Rattle.wfc_search.specs.Search.{IsGoing, IsReady};

use crate::reply::Stop;
use rand_core::Rng;
use std::alloc::Global;
use std::sync::ledger::{Blank, Ledger};
use wfc_ac4::Ac4;
use wfc_choose::Chooser;
use wfc_domains::Steps;
use wfc_outside::{Sink, SinkFault};
use wfc_problem::Problem;
use wfc_proof::{JournalFault, ProofJournal, Shape, SpanJournal, write_header, write_header_2};
use wfc_runs::{open_search, words_of_seed};
use wfc_search::{Outcome, Search};

/// How a run is made whose lines are put, and how they are written.
#[derive(Clone, Copy, Debug)]
pub struct RunWriting {
    /// The number of the format: 1, or 2, in which removals are joined into spans.
    pub format: u8,
    /// The shape that stands in the head of format 2. Its windows have a side of at most 6 pixels.
    pub shape: Shape,
    /// How many retractions the run may make.
    pub budget: u32,
    pub seed: u64,
}

/// Makes the run of a problem, with its steps counted in a ledger of its own, and puts the head and the lines of the run.
/// All memory is taken before the first byte is put. The sink is not finished.
pub fn put_run<O: Sink, L: Ledger>(
    alloc: Global,
    writing: RunWriting,
    problem: &Problem,
    chooser: Box<dyn Chooser>,
    out: &mut O,
    blank: Blank,
) -> Result<Outcome, Stop>
    requires name { blank.name ≡ L.name }
    requires parts { blank.parts ≡ L.parts }
    requires some { 0 < blank.parts }
    requires side { writing.shape.n ≤ 6 }
    ensures puts { PutsOrStops (told chooser).rule writing problem.now (O.seen out.old) (O.seen
        out.new) result }
{
    let mut search = open_search(alloc, problem, chooser, writing.budget)?;
    put_search::<O, L>(writing, problem, &mut search, out, blank)
}

/// Puts the head and the lines of a search that has made no turn. It takes no memory.
pub(crate) fn put_search<O: Sink, L: Ledger>(
    writing: RunWriting,
    problem: &Problem,
    search: &mut Search<'_, Ac4<'_>>,
    out: &mut O,
    blank: Blank,
) -> Result<Outcome, Stop>
    requires name { blank.name ≡ L.name }
    requires parts { blank.parts ≡ L.parts }
    requires some { 0 < blank.parts }
    requires side { writing.shape.n ≤ 6 }
    requires ready { IsReady (search_view told search.old) }
    requires going { IsGoing search.old.course }
    requires problem { search.old.problem.now ≡ problem.now }
    requires standing { search.old.store.standing ≡ [] }
    requires budget { search.old.course.budget ≡ writing.budget }
    requires retractions { search.old.course.retractions ≡ 0 }
    ensures puts { PutsOrStops (search_view told search.old).chooser.rule writing problem.now
        (O.seen out.old) (O.seen out.new) result }
    ensures answered { (fault : Fault) → result ≢ Err (Unanswered fault) }
{
    put_head(out, writing, problem)?;
    match put_seeded::<O, L>(writing.format, writing.seed, search, out, blank) {
        Ok(outcome) => Ok(outcome),
        Err(_) => Err(Stop::Cut),
    }
}

/// Puts the head in the format asked for.
fn put_head<O: Sink>(out: &mut O, writing: RunWriting, problem: &Problem) -> Result<(), SinkFault>
    requires side { writing.shape.n ≤ 6 }
    ensures put { Puts (O.seen out.old) (O.seen out.new)
        (writing_head writing problem.now) result }
    ensures bare { OnOk result (IsBare (written_format writing.format) (O.seen out.new).told) }
{
    let cells = problem.cells();
    let values = problem.values();
    if writing.format == 1 {
        write_header(out, cells, values)?;
    } else {
        write_header_2(out, &writing.shape, cells, values)?;
    }
    Ok(())
}

/// Makes the run with the words that a seed gives, and puts its lines in the format of this number.
fn put_seeded<O: Sink, L: Ledger>(
    format: u8,
    seed: u64,
    search: &mut Search<'_, Ac4<'_>>,
    out: &mut O,
    blank: Blank,
) -> Result<Outcome, JournalFault>
    requires name { blank.name ≡ L.name }
    requires parts { blank.parts ≡ L.parts }
    requires some { 0 < blank.parts }
    requires ready { IsReady (search_view told search.old) }
    requires going { IsGoing search.old.course }
    requires bare { IsBare (written_format format) (O.seen out.old).told }
    ensures put { IfOk result (λ outcome. PutsFrom (written_format format) (search_view told
        search.old) (words_of_seed seed) outcome (O.seen out.old) (O.seen out.new)) }
    ensures cut { OnErr result (CutsFrom (written_format format) (search_view told search.old)
        (words_of_seed seed) (O.seen out.old) (O.seen out.new)) }
{
    let mut words = words_of_seed(seed);
    let mut steps = Steps::<L>::new(blank);
    put_turns(format, search, &mut words, out, &mut steps)
}

/// Makes the run, and puts its lines in the format of this number.
fn put_turns<R: Rng, O: Sink, L: Ledger>(
    format: u8,
    search: &mut Search<'_, Ac4<'_>>,
    words: &mut R,
    out: &mut O,
    steps: &mut Steps<L>,
) -> Result<Outcome, JournalFault>
    requires ready { IsReady (search_view told search.old) }
    requires going { IsGoing search.old.course }
    requires bare { IsBare (written_format format) (O.seen out.old).told }
    ensures put { IfOk result (λ outcome. PutsFrom (written_format format) (search_view told
        search.old) (R.stream words.old) outcome (O.seen out.old) (O.seen out.new)) }
    ensures cut { OnErr result (CutsFrom (written_format format) (search_view told search.old)
        (R.stream words.old) (O.seen out.old) (O.seen out.new)) }
{
    if format == 1 {
        put_lines(search, words, out, steps)
    } else {
        put_spans(search, words, out, steps)
    }
}

/// Makes the run, and puts its lines.
fn put_lines<R: Rng, O: Sink, L: Ledger>(
    search: &mut Search<'_, Ac4<'_>>,
    words: &mut R,
    out: &mut O,
    steps: &mut Steps<L>,
) -> Result<Outcome, JournalFault>
    requires ready { IsReady (search_view told search.old) }
    requires going { IsGoing search.old.course }
    requires bare { IsBare One (O.seen out.old).told }
    ensures put { IfOk result (λ outcome. PutsFrom One (search_view told search.old) (R.stream
        words.old) outcome (O.seen out.old) (O.seen out.new)) }
    ensures cut { OnErr result (CutsFrom One (search_view told search.old) (R.stream words.old)
        (O.seen out.old) (O.seen out.new)) }
{
    let mut journal = ProofJournal::behind_head(out);
    search.run(words, &mut journal, steps)
}

/// Makes the run, and puts its lines, the removals joined into spans.
fn put_spans<R: Rng, O: Sink, L: Ledger>(
    search: &mut Search<'_, Ac4<'_>>,
    words: &mut R,
    out: &mut O,
    steps: &mut Steps<L>,
) -> Result<Outcome, JournalFault>
    requires ready { IsReady (search_view told search.old) }
    requires going { IsGoing search.old.course }
    requires bare { IsBare Two (O.seen out.old).told }
    ensures put { IfOk result (λ outcome. PutsFrom Two (search_view told search.old) (R.stream
        words.old) outcome (O.seen out.old) (O.seen out.new)) }
    ensures cut { OnErr result (CutsFrom Two (search_view told search.old) (R.stream words.old)
        (O.seen out.old) (O.seen out.new)) }
{
    let mut journal = SpanJournal::behind_head(out);
    search.run(words, &mut journal, steps)
}
