//! What leaves a call: the text of an answer, the line of the error stream, and the status.

ghost use Rattle.std.specs.Prelude.{◌≡◌};
ghost use Rattle.wfc_cli.specs.Delivery.{Says, Tells, said_of_words};
ghost use Rattle.wfc_reply.specs.Ending.{Leaves};
ghost use Rattle.wfc_reply.specs.Reply.{verdict_text};
ghost use Rattle.wfc_reply.specs.ReplyView.{reply_view};

use crate::lines::{name, tell_fault};
use wfc_lines::{budget_spent, check, command, map_exists, no_domains, no_map, out_failed, stuck};
use wfc_outside::{Sink, write_all};
use wfc_plan::{Fault, Source};
use wfc_reply::{Answer, CommandVerdict, Stop};
use wfc_words::{CommandFault, Request};

/// Tells how a command ended, and answers the status. Of one that ends with status 0 there is nothing to tell.
#[inline]
pub(crate) fn deliver<E: Sink>(
    request: &Request,
    ended: Result<CommandVerdict, Stop>,
    err: &mut E,
) -> u8
    ensures says { Says request.now ended (E.seen err.old) (E.seen err.new) result }
{
    match ended {
        Ok(CommandVerdict::Done) => 0,
        _ => deliver_any(request, ended, err),
    }
}

/// The same for every ending, out of the way of the one that has nothing to tell.
#[cold]
#[inline(never)]
fn deliver_any<E: Sink>(request: &Request, ended: Result<CommandVerdict, Stop>, err: &mut E) -> u8
    ensures says { Says request.now ended (E.seen err.old) (E.seen err.new) result }
{
    match ended {
        Ok(verdict) => {
            tell_verdict(err, request, verdict);
            verdict.status()
        }
        Err(Stop::Cut) => {
            let _ = out_failed(err);
            5
        }
        Err(Stop::Unanswered { fault }) => {
            let _ = tell_fault(err, request, fault);
            fault.status()
        }
    }
}

/// Tells why words were read as no request, and answers the status.
pub(crate) fn refuse_words<E: Sink>(err: &mut E, fault: CommandFault) -> u8
    ensures status { result ≡ (said_of_words fault).status }
    ensures told { Tells (said_of_words fault).told (E.seen err.old) (E.seen err.new) }
{
    let _ = command(err, fault);
    match fault {
        CommandFault::NoMemory => 6,
        _ => 3,
    }
}

/// Puts the whole text of an answer into its sink, if there is one, and finishes it.
pub(crate) fn put_answer<O: Sink>(
    out: &mut O,
    reply: Result<Answer, Fault>,
) -> Result<CommandVerdict, Stop>
    ensures leaves { Leaves (reply_view reply) (O.seen out.old) (O.seen out.new) result }
{
    let answer = reply?;
    if let Some(text) = &answer.text {
        write_all(out, text)?;
        out.finish()?;
    }
    Ok(answer.verdict)
}

/// Tells the line of a verdict, if it has one.
fn tell_verdict<E: Sink>(err: &mut E, request: &Request, verdict: CommandVerdict)
    ensures told { Tells (verdict_text request.now verdict) (E.seen err.old) (E.seen err.new) }
{
    let _ = match verdict {
        CommandVerdict::Done => Ok(()),
        CommandVerdict::NoMap => no_map(err),
        CommandVerdict::Spent { budget } => budget_spent(err, budget),
        CommandVerdict::Dead => no_domains(err),
        CommandVerdict::MapExists => map_exists(err),
        CommandVerdict::Unaccepted { fault } => check(
            err,
            &fault,
            name(request, Source::Refutation),
        ),
        CommandVerdict::Stuck { x, y } => stuck(err, x, y),
    };
}
