//! The refutation of a request.

ghost use Rattle.std.specs.Prelude.{◌≡◌};
ghost use Rattle.wfc_plan.specs.Plan.{Goes};
ghost use Rattle.wfc_plan.specs.declared.fault.Fault.TheVariants.{Unread};
ghost use Rattle.wfc_plan.specs.declared.fault.Source.TheVariants.{Refutation};
ghost use Rattle.wfc_proof_commands.specs.CheckTask.{check_made, check_plan};
ghost use Rattle.wfc_proof_commands.specs.Checking.{flat_proofs, found_in, refutation_name, refutation_plan, shape_by, shape_asked};
ghost use Rattle.wfc_task.specs.Asked.{IsOutputAsked, IsSourceAsked};

use std::alloc::Global;
use wfc_check::{CheckFault, check};
use wfc_outside::{Folder, ReadFault};
use wfc_plan::{Fault, Refusal, Source};
use wfc_problem::Problem;
use wfc_proof::Shape;
use wfc_task::posed_problem;
use wfc_words::{Request, SourceModel};

/// What `check` comes to: the first fault of the refutation's text, if it has one.
pub fn check_task<F: Folder>(
    alloc: Global,
    request: &Request,
    folder: &mut F,
) -> Result<Option<CheckFault>, Fault>
    requires source { IsSourceAsked request.now }
    requires output { IsOutputAsked request.now }
    ensures goes { Goes (check_plan flat_proofs request.now)
        (F.seen folder.old) (F.seen folder.new) (check_made result) }
{
    let problem = posed_problem(alloc, request, folder)?;
    let shape = shape(request);
    let found = refutation(alloc, request, &shape, &problem, folder)?;
    Ok(found)
}

/// The first fault of the text of the refutation, which is held to the problem and the shape.
pub fn refutation<F: Folder>(
    alloc: Global,
    request: &Request,
    shape: &Shape,
    problem: &Problem,
    folder: &mut F,
) -> Result<Option<CheckFault>, Fault>
    ensures goes { Goes (refutation_plan shape.now request.now problem.now)
        (F.seen folder.old) (F.seen folder.new) result }
{
    let name = refutation_name(request);
    found_in(check(alloc, problem, shape, folder, name))
}

/// The name of the file of the refutation.
pub(crate) fn refutation_name(request: &Request) -> &str
    ensures value { result.now ≡ refutation_name request.now }
{
    match request.refutation() {
        Some(name) => name,
        None => "",
    }
}

/// The shape of a request. That of a tile set has no windows, images and edges of a sample, whatever
/// the words say.
pub fn shape(request: &Request) -> Shape
    ensures value { result ≡ shape_asked request.now }
{
    shape_by(request.source, request)
}

/// The shape of a request whose map is made of this.
fn shape_by(source: SourceModel, request: &Request) -> Shape
    ensures value { result ≡ shape_by source request.now }
{
    match source {
        SourceModel::Overlap { n } => Shape {
            n,
            width: request.width,
            height: request.height,
            depth: 1,
            symmetry: request.symmetry,
            wrap_in: request.wrap_in,
            wrap_out: request.wrap_out,
        },
        SourceModel::Tiles => Shape {
            n: 0,
            width: request.width,
            height: request.height,
            depth: 1,
            symmetry: 1,
            wrap_in: false,
            wrap_out: request.wrap_out,
        },
    }
}

/// The answer to a file, as a task's.
fn found_in(answer: Result<(), CheckFault>) -> Result<Option<CheckFault>, Fault>
    ensures value { result ≡ found_in answer }
{
    match answer {
        Ok(()) => Ok(None),
        Err(CheckFault::Missing) => Err(unread_refutation(ReadFault::Missing)),
        Err(CheckFault::Failed) => Err(unread_refutation(ReadFault::Failed)),
        Err(CheckFault::TooLong) => Err(Fault::Refused {
            refusal: Refusal::TooLong {
                source: Source::Refutation,
            },
        }),
        Err(CheckFault::NoMemory) => Err(Fault::Refused {
            refusal: Refusal::NoMemory,
        }),
        Err(fault) => Ok(Some(fault)),
    }
}

/// The fault of a refutation that isn't read.
fn unread_refutation(fault: ReadFault) -> Fault
    ensures value { result ≡ Unread Refutation fault }
{
    Fault::Unread {
        source: Source::Refutation,
        fault,
    }
}
