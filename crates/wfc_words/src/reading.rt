//! The request of the words.

ghost use Rattle.std.specs.Prelude.{◌≡◌, IfOk};
ghost use Rattle.std.specs.Option.{option_map};
ghost use Rattle.std.specs.String.{string_bytes};
ghost use Rattle.clap.specs.Matches.{found_of};
ghost use Rattle.clap.specs.Walk.{rows_of};
ghost use Rattle.wfc_outside.specs.Gives.{Gives};
ghost use Rattle.wfc_words.specs.InRange.{IsInRange};
ghost use Rattle.wfc_words.specs.Request.{request_by, request_found, request_of, request_with, texts};

use crate::asked::Request;
use crate::commands::kind_named;
use crate::fault::CommandFault;
use crate::kinds::CommandKind;
use crate::simple::{flag, matches, text};
use crate::texts;
use crate::values::{Values, values_among};
use clap::ArgMatches;
use std::alloc::{AllocError, Global};

/// The request of the words, which are those behind the program's name. The first names the command; the others are
/// read by `clap` as one simple command.
pub fn request(alloc: Global, words: &[String]) -> Result<Request, CommandFault>
    ensures exact { Gives CommandFault.NoMemory (λ asked. asked) result
        (request_of (texts words.now)) }
    ensures in_range { IfOk result IsInRange }
{
    let [name, rest @ ..] = words else {
        return Err(CommandFault::Refused);
    };
    match kind_named(name.as_str()) {
        Some(kind) => asked_by(alloc, kind, rest),
        None => Err(CommandFault::Refused),
    }
}

/// The request of the words behind a command's name.
fn asked_by(alloc: Global, kind: CommandKind, words: &[String]) -> Result<Request, CommandFault>
    ensures exact { Gives CommandFault.NoMemory (λ asked. asked) result
        (request_by kind (texts words.now)) }
{
    let found = matches(alloc, kind, words)?;
    asked_for(alloc, kind, &found)
}

/// The request of what was found among the words.
fn asked_for(
    alloc: Global,
    kind: CommandKind,
    found: &ArgMatches<'_>,
) -> Result<Request, CommandFault>
    ensures exact { Gives CommandFault.NoMemory (λ asked. asked) result
        (request_found kind (rows_of (found_of found.now))) }
{
    let values = values_among(kind, found)?;
    match with_texts(alloc, kind, found, values) {
        Ok(request) => Ok(request),
        Err(_) => Err(CommandFault::NoMemory),
    }
}

/// The request with these values and the texts that were found.
fn with_texts(
    alloc: Global,
    kind: CommandKind,
    found: &ArgMatches<'_>,
    values: Values,
) -> Result<Request, AllocError>
    ensures ok { IfOk result (λ request.
        request ≡ request_with kind (rows_of (found_of found.now)) values) }
{
    let file = String::from_str(alloc, text(kind, found, texts::FILE).unwrap_or(""))?;
    let pins = owned_text(alloc, text(kind, found, texts::PINS))?;
    let steps = owned_text(alloc, text(kind, found, texts::STEPS))?;
    let refutation = owned_text(alloc, text(kind, found, texts::REFUTATION))?;
    let mask = owned_text(alloc, text(kind, found, texts::MASK))?;
    Ok(Request {
        command: kind,
        file,
        source: values.map.source,
        width: values.map.width,
        height: values.map.height,
        symmetry: values.map.symmetry,
        wrap_in: flag(kind, found, texts::WRAP_IN),
        wrap_out: flag(kind, found, texts::WRAP_OUT),
        pins,
        steps,
        refutation,
        seed: values.run.seed,
        budget: values.run.budget,
        rule: values.run.rule,
        form: values.writing.form,
        number: values.writing.number,
        format: values.writing.format,
        mask,
        seeds: values.race.seeds,
        quantum: values.race.quantum,
        block: values.space.block,
        depth: values.space.depth,
    })
}

/// A text that may be missing, as a text of its own.
fn owned_text(alloc: Global, text: Option<&str>) -> Result<Option<String>, AllocError>
    ensures ok { IfOk result (λ copy.
        option_map string_bytes copy ≡ option_map (λ text. text.now) text.entry) }
{
    match text {
        Some(text) => Ok(Some(String::from_str(alloc, text)?)),
        None => Ok(None),
    }
}
