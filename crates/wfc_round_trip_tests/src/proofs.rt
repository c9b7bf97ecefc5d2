//! Refutations that are written, read again and brought to format 2.

use std::alloc::Global;
use std::process::Abort;
use std::test::Fail;
use wfc_outside::{MemoryFolder, MemorySink};
use wfc_rows::{folder_of, status_of_words};

/// How many bytes the sinks of these tests take.
const ROOM: usize = 200_000;

/// What a command writes over this folder, and its status.
fn written(alloc: Global, folder: &mut MemoryFolder, line: &str) -> Result<(u8, MemorySink), Fail> {
    let mut out = MemorySink::new(alloc, 4000, ROOM)?;
    let mut err = MemorySink::new(alloc, 4000, ROOM)?;
    let status = status_of_words(alloc, line, folder, &mut out, &mut err)?;
    Ok((status, out))
}

/// A folder with the files of the tests and this refutation, in files of both formats.
fn folder_with(alloc: Global, plain: &[u8], shaped: &[u8]) -> Result<MemoryFolder, Fail> {
    let mut folder = folder_of(alloc, 4000)?;
    folder.add(
        String::from_str(alloc, "plain")?,
        Vec::from_slice(alloc, plain)?,
    )?;
    folder.add(
        String::from_str(alloc, "shaped")?,
        Vec::from_slice(alloc, shaped)?,
    )?;
    Ok(folder)
}

/// The command with these words behind it, and then the name of the refutation's file.
fn line_of(alloc: Global, command: &str, words: &str, name: &str) -> Result<String, Fail> {
    let mut line = String::from_str(alloc, command)?;
    line.push_str(" chk.txt 2 ")?;
    line.push_str(words)?;
    line.push_str(name)?;
    Ok(line)
}

/// What a command writes over this folder, with status 0; it has these words behind it, and then these ones.
fn answer(
    rt: &(impl Abort + AllocGlobal),
    folder: &mut MemoryFolder,
    command: &str,
    size: &str,
    rest: &str,
) -> Result<MemorySink, Fail> {
    let line = line_of(rt.alloc(), command, size, rest)?;
    let (status, answer) = written(rt.alloc(), folder, &line)?;
    assert_eq!(rt; status, 0, "{line}");
    Ok(answer)
}

/// A refutation in this file is accepted, and brought to this one in format 2.
fn is_accepted(
    rt: &(impl Abort + AllocGlobal),
    folder: &mut MemoryFolder,
    size: &str,
    name: &str,
    shaped: &MemorySink,
) -> Result<(), Fail> {
    let accepted = answer(rt, folder, "check", size, name)?;
    assert_eq!(rt; accepted.bytes(), b"accepted\n".as_slice(), "{name}");
    let upgraded = answer(rt, folder, "upgrade", size, name)?;
    assert_eq!(rt; upgraded.bytes(), shaped.bytes(), "{name}");
    Ok(())
}

/// What `refute` writes of a map of this size is accepted in both formats, and the one is brought to the other.
fn check_refuted(rt: &(impl Abort + AllocGlobal), size: &str, least: usize) -> Result<(), Fail> {
    let mut folder = folder_of(rt.alloc(), 4000)?;
    let rest = " --wrap-in --wrap-out --format 1";
    let plain = answer(rt, &mut folder, "refute", size, rest)?;
    assert!(rt; plain.bytes().len() >= least);
    let shaped = answer(rt, &mut folder, "refute", size, " --wrap-in --wrap-out")?;
    let mut folder = folder_with(rt.alloc(), plain.bytes(), shaped.bytes())?;
    is_accepted(
        rt,
        &mut folder,
        size,
        " --wrap-in --wrap-out plain",
        &shaped,
    )?;
    is_accepted(
        rt,
        &mut folder,
        size,
        " --wrap-in --wrap-out shaped",
        &shaped,
    )
}

/// Rings of an odd length have no map: a small one, and one whose proof has some hundred lines.
#[test]
fn refutations_are_accepted(rt: HostRuntime) -> Result<(), Fail> {
    check_refuted(&rt, "3 3", 80)?;
    check_refuted(&rt, "31 31", 5_000)
}
