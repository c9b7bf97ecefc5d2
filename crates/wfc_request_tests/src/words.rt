//! Words read by tables: those that are no request, and behind them the requests of others.

mod requests;

use std::alloc::{AllocError, Global};
use std::process::Abort;
use wfc_words::{CommandFault, Request, ValueName, request};

/// The words of a text, parted by blanks; a word `''` is an empty one.
fn words(alloc: Global, text: &str) -> Result<Vec<String>, AllocError> {
    let mut words = Vec::new(alloc);
    for word in text.split(' ') {
        let word = if word == "''" { "" } else { word };
        words.push(String::from_str(alloc, word)?)?;
    }
    Ok(words)
}

fn read(alloc: Global, text: &str) -> Result<Request, CommandFault> {
    let words = words(alloc, text)?;
    request(alloc, &words)
}

/// Words that are no command.
static REFUSED: [&str; 34] = [
    "''",
    "paint chk.txt",
    "Fill chk.txt 2 2 2",
    "fill chk.txt 2 2",
    "fill chk.txt 2 2 2 2",
    "fill chk.txt 2 2 2 --seed",
    "fill chk.txt 2 2 2 --seed -1",
    "fill chk.txt -2 2 2",
    "fill chk.txt 2 2 2 --opt 1",
    "fill chk.txt 2 2 2 --steps s.txt",
    "fill chk.txt 2 2 2 --format 1",
    "fill chk.txt 2 2 2 --seed 1 --seed 1",
    "fill chk.txt 2 2 2 --wrap-in --wrap-in",
    "fill chk.txt 2 2 2 --wrap-in=true",
    "fill chk.txt 2 2 2 --help",
    "fill --version",
    "fill chk.txt 2 2 2 -h",
    "fill --opt -- chk.txt 2 2 2",
    "learn chk.txt",
    "learn chk.txt 2 --wrap-out",
    "learn chk.toml tiles --mask m.txt",
    "domains chk.txt 2 2 2 --seed 1",
    "refute chk.txt 2 2 2 --form cells",
    "check chk.txt 2 2 2",
    "demo",
    "demo 1 2",
    "demo 1 --seed 2",
    "grow chk.txt 2 2",
    "grow chk.txt 2 2 2 --wrap-out",
    "grow chk.txt 2 2 2 --mask m.txt",
    "box-fill a.toml tiles 2 2 2",
    "box-fill a.toml 2 2 2 --wrap-in",
    "box-refute a.toml 2 2 2 --form cells",
    "box-check a.toml 2 2 2",
];

/// Words with a value out of its range.
static VALUES: [(&str, ValueName); 28] = [
    ("fill chk.txt 7 2 2", ValueName::Model),
    ("fill chk.txt 0 0 0", ValueName::Model),
    ("fill chk.txt tile 2 2", ValueName::Model),
    ("fill chk.txt +2 2 2", ValueName::Model),
    ("fill chk.txt 2 0 0", ValueName::Width),
    ("fill chk.txt 2 4097 2", ValueName::Width),
    ("fill chk.txt 2 4096 4097", ValueName::Height),
    ("fill chk.txt tiles 2 2 --symmetry 9", ValueName::Symmetry),
    ("learn chk.txt 2 --symmetry=0", ValueName::Symmetry),
    ("fill chk.txt 2 2 2 --seed=-1", ValueName::Seed),
    ("fill chk.txt 2 2 2 --seed=", ValueName::Seed),
    (
        "fill chk.txt 2 2 2 --seed 18446744073709551616",
        ValueName::Seed,
    ),
    (
        "fill chk.txt 2 2 2 --budget 1000000001 --rule none",
        ValueName::Budget,
    ),
    ("fill chk.txt 2 2 2 --form p7 --rule none", ValueName::Rule),
    ("fill chk.txt 2 2 2 --form P6", ValueName::Form),
    ("demo 1000001", ValueName::Number),
    ("demo x", ValueName::Number),
    ("refute chk.txt 2 2 2 --format 3", ValueName::Format),
    ("fill chk.txt 2 3 1 --mask m.txt", ValueName::Mask),
    ("check chk.txt 2 3 1 r.txt --mask=", ValueName::Mask),
    ("grow a.toml tiles 2 2", ValueName::Model),
    (
        "grow chk.txt 2 2 2 --rule ranked --block 1",
        ValueName::Rule,
    ),
    ("grow chk.txt 2 2 2 --block 1", ValueName::Block),
    ("grow chk.txt 6 2 2 --block 4097", ValueName::Block),
    ("box-fill a.toml 2 2 257", ValueName::Depth),
    ("box-fill a.toml 2 4097 257", ValueName::Height),
    ("box-refute a.toml 2 2 0", ValueName::Depth),
    ("box-check a.toml 2 2 x r.txt", ValueName::Depth),
];

/// The words of a text have this fault.
fn refuses(rt: &(impl Abort + AllocGlobal), text: &str, fault: CommandFault) {
    assert!(rt; read(rt.alloc(), text).err() == Some(fault), "of {text:?}");
}

#[test]
fn refuses_no_words(rt: HostRuntime) {
    assert!(rt; request(rt.alloc(), &[]).err() == Some(CommandFault::Refused));
}

#[test]
fn refuses_words(rt: HostRuntime) {
    for text in &REFUSED {
        refuses(&rt, text, CommandFault::Refused);
    }
}

#[test]
fn names_values(rt: HostRuntime) {
    for (text, name) in &VALUES {
        refuses(&rt, text, CommandFault::Value { name: *name });
    }
}
