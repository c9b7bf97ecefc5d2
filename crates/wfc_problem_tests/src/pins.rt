//! Pins and steps, by tables.

use std::alloc::{AllocError, Global};
use std::process::Abort;
use std::test::Fail;
use wfc_pins::{
    PinFault, PinLine, RangeFault, Step, StepFault, StepLine, read_pins, read_steps, steps_fit,
};
use wfc_problem::{Literal, NO_CELL, Parts, Problem};

/// A pin as a table has it.
fn parts(pin: &PinLine) -> (u32, bool, u32, u32, &[u8]) {
    (pin.line, pin.keep, pin.x, pin.y, pin.symbol.as_slice())
}

/// The pins of a short text.
fn pins_of(rt: &impl Abort, alloc: Global, text: &[u8]) -> Result<Vec<PinLine>, PinFault> {
    assert!(rt; text.len() < 64);
    read_pins(alloc, text)
}

/// Whether a text has one pin, and this.
fn has_pin(
    rt: &impl Abort,
    alloc: Global,
    text: &[u8],
    wanted: (u32, bool, u32, u32, &[u8]),
) -> Result<(), Fail> {
    let pins = pins_of(rt, alloc, text)?;
    assert!(rt; pins.len() == 1);
    assert_eq!(rt; parts(&pins[0]), wanted, "of {text:?}");
    Ok(())
}

#[test]
fn reads_one_pin(rt: HostRuntime) -> Result<(), Fail> {
    let alloc = rt.alloc();
    has_pin(&rt, alloc, b"pin 0 0 a\n", (1, true, 0, 0, b"a"))?;
    // The last line may lack its end, and lines may end with CRLF.
    has_pin(&rt, alloc, b"pin 3 0 z", (1, true, 3, 0, b"z"))?;
    has_pin(&rt, alloc, b"ban 1 2 b\r\n", (1, false, 1, 2, b"b"))?;
    // Blanks and TABs in any number, also at the ends.
    has_pin(&rt, alloc, b" \tban\t4  5 \tx\t ", (1, false, 4, 5, b"x"))?;
    // Leading zeros, and the greatest numbers.
    has_pin(
        &rt,
        alloc,
        b"pin 007 4294967295 q",
        (1, true, 7, u32::MAX, b"q"),
    )?;
    has_pin(
        &rt,
        alloc,
        b"pin 00004294967295 0 q",
        (1, true, u32::MAX, 0, b"q"),
    )?;
    // Lines that are passed over count.
    has_pin(
        &rt,
        alloc,
        b"# pin 1 1 a\n\n \t\npin 0 1 #\n#",
        (4, true, 0, 1, b"#"),
    )
}

/// A symbol is any word.
#[test]
fn reads_any_symbol(rt: HostRuntime) -> Result<(), Fail> {
    let alloc = rt.alloc();
    has_pin(&rt, alloc, b"pin 0 0 \\s", (1, true, 0, 0, b"\\s"))?;
    has_pin(
        &rt,
        alloc,
        b"pin 0 0 255,0,255",
        (1, true, 0, 0, b"255,0,255"),
    )?;
    has_pin(&rt, alloc, b"pin 0 0 line/0", (1, true, 0, 0, b"line/0"))?;
    has_pin(
        &rt,
        alloc,
        b"pin 0 0 \x00\xff\r",
        (1, true, 0, 0, b"\x00\xff\r"),
    )
}

/// Whether a text has no pins.
fn has_no_pins(rt: &impl Abort, alloc: Global, text: &[u8]) -> Result<(), Fail> {
    assert!(rt; pins_of(rt, alloc, text)?.is_empty(), "of {text:?}");
    Ok(())
}

#[test]
fn reads_no_pins(rt: HostRuntime) -> Result<(), Fail> {
    has_no_pins(&rt, rt.alloc(), b"")?;
    has_no_pins(&rt, rt.alloc(), b"\n\n")?;
    has_no_pins(&rt, rt.alloc(), b"#")?;
    has_no_pins(&rt, rt.alloc(), b"\r\n# pin\n \t")
}

/// Whether the pin behind so many others is this.
fn is_pin(rt: &impl Abort, pins: &[PinLine], at: usize, wanted: (u32, bool, u32, u32, &[u8])) {
    assert!(rt; at < pins.len());
    assert_eq!(rt; parts(&pins[at]), wanted);
}

#[test]
fn reads_pins_in_order(rt: HostRuntime) -> Result<(), Fail> {
    let pins = pins_of(&rt, rt.alloc(), b"pin 0 1 a\n\nban 2 3 bc\r\npin 0 1 a")?;
    assert_eq!(rt; pins.len(), 3);
    is_pin(&rt, &pins, 0, (1, true, 0, 1, b"a"));
    is_pin(&rt, &pins, 1, (3, false, 2, 3, b"bc"));
    is_pin(&rt, &pins, 2, (4, true, 0, 1, b"a"));
    Ok(())
}

/// Whether a line is the first of a text that is no pin.
fn is_no_pin(rt: &impl Abort, alloc: Global, text: &[u8], line: u32) {
    let found = pins_of(rt, alloc, text).err();
    assert_eq!(rt; found, Some(PinFault::BadLine { line }), "of {text:?}");
}

/// Whether no pin stands at line 1 of each text.
fn are_no_pins(rt: &impl Abort, alloc: Global, texts: &[&[u8]]) {
    for text in texts {
        is_no_pin(rt, alloc, text, 1);
    }
}

#[test]
fn refuses_pins(rt: HostRuntime) {
    let few_or_many = [
        b"pin 0 a".as_slice(),
        b"pin 0 0",
        b"pin",
        b"pin 0 0 a b",
        b"pin 0 0 a #",
    ];
    are_no_pins(&rt, rt.alloc(), &few_or_many);
    // Another first word, also one of the other kind of file.
    let other_words = [
        b"Pin 0 0 a".as_slice(),
        b"pins 0 0 a",
        b"choose 0 0",
        b"\x00",
    ];
    are_no_pins(&rt, rt.alloc(), &other_words);
}

#[test]
fn refuses_numbers_and_lines(rt: HostRuntime) {
    let alloc = rt.alloc();
    // A hash behind a blank begins no comment.
    is_no_pin(&rt, alloc, b" # pin", 1);
    // Numbers that are none, or too great.
    let numbers = [
        b"pin -1 0 a".as_slice(),
        b"pin 0 +1 a",
        b"pin 0 4294967296 a",
        b"pin 18446744073709551616 0 a",
    ];
    are_no_pins(&rt, alloc, &numbers);
    // Only a line feed ends a line.
    is_no_pin(&rt, alloc, b"pin 0 0 a\rpin 0 0 a", 1);
    // The first line at fault is named.
    is_no_pin(&rt, alloc, b"# a\npin 0 0 a\n\nban 0 b\nban", 4);
    is_no_pin(&rt, alloc, b"pin 0 0 a\n\nban 0 0 b\npin 1 1 1 1", 4);
}

/// The front, the piece as often, and the end.
fn repeated(
    alloc: Global,
    front: &[u8],
    piece: &[u8],
    times: usize,
    end: &[u8],
) -> Result<Vec<u8>, AllocError> {
    let mut text = Vec::from_slice(alloc, front)?;
    for _ in 0..times {
        text.extend_from_slice(piece)?;
    }
    text.extend_from_slice(end)?;
    Ok(text)
}

#[test]
fn reads_large_pins_files(rt: HostRuntime) -> Result<(), Fail> {
    let text = repeated(
        rt.alloc(),
        b"",
        b"pin 10 20 abc\n# no\n",
        50_000,
        b"ban 1 2 c",
    )?;
    assert!(rt; text.len() < 2_000_000);
    let pins = read_pins(rt.alloc(), &text)?;
    assert_eq!(rt; pins.len(), 50_001);
    is_pin(&rt, &pins, 50_000, (100_001, false, 1, 2, b"c"));
    Ok(())
}

/// Whether the third line is the first that is no pin, and this line the first that is no step.
fn is_hostile(rt: &impl Abort, alloc: Global, text: &[u8], line: u32) {
    assert!(rt; text.len() < 2_000_000);
    let found = read_pins(alloc, text).err();
    assert_eq!(rt; found, Some(PinFault::BadLine { line: 3 }));
    let found = read_steps(alloc, text).err();
    assert_eq!(rt; found, Some(StepFault::BadLine { line }));
}

#[test]
fn refuses_hostile_lines(rt: HostRuntime) -> Result<(), Fail> {
    let alloc = rt.alloc();
    // A line of a million bytes, a number of a thousand digits, a million words, and a million blanks before a word.
    is_hostile(
        &rt,
        alloc,
        &repeated(alloc, b"\npin 0 0 a\n", b"x", 1_000_000, b"")?,
        2,
    );
    is_hostile(
        &rt,
        alloc,
        &repeated(alloc, b"\n\npin 0 1", b"0", 1000, b" a\n")?,
        3,
    );
    is_hostile(
        &rt,
        alloc,
        &repeated(alloc, b"\n\npin ", b"0 ", 500_000, b"a\n")?,
        3,
    );
    is_hostile(
        &rt,
        alloc,
        &repeated(alloc, b"\n\n", b" \t", 500_000, b"\xff")?,
        3,
    );
    Ok(())
}

/// The step at a line, that the cell has the value.
fn choose(line: u32, cell: u32, value: u16) -> StepLine {
    StepLine {
        line,
        step: Step::Assume(Literal::Is { cell, value }),
    }
}

/// That it doesn't.
fn forbid(line: u32, cell: u32, value: u16) -> StepLine {
    StepLine {
        line,
        step: Step::Assume(Literal::Not { cell, value }),
    }
}

fn undo(line: u32) -> StepLine {
    StepLine {
        line,
        step: Step::Undo,
    }
}

/// Whether a text has these steps.
fn has_steps(rt: &impl Abort, alloc: Global, text: &[u8], wanted: &[StepLine]) -> Result<(), Fail> {
    assert!(rt; text.len() < 64);
    let steps = read_steps(alloc, text)?;
    assert_eq!(rt; steps.as_slice(), wanted, "of {text:?}");
    Ok(())
}

#[test]
fn reads_few_steps(rt: HostRuntime) -> Result<(), Fail> {
    let alloc = rt.alloc();
    has_steps(&rt, alloc, b"", &[])?;
    has_steps(&rt, alloc, b"# undo\n\n", &[])?;
    let greatest = [forbid(1, u32::MAX, u16::MAX), undo(3)];
    has_steps(
        &rt,
        alloc,
        b"\tforbid\t004294967295  65535 \r\n# \n undo",
        &greatest,
    )
}

#[test]
fn reads_steps(rt: HostRuntime) -> Result<(), Fail> {
    let alloc = rt.alloc();
    let steps = [choose(1, 0, 0), choose(2, 2, 1), undo(3), undo(4)];
    has_steps(&rt, alloc, b"choose 0 0\nchoose 2 1\nundo\nundo\n", &steps)?;
    // What is undone is undone again only after another assumption.
    let steps = [choose(1, 1, 2), undo(2), forbid(3, 3, 4), undo(4)];
    has_steps(&rt, alloc, b"choose 1 2\nundo\nforbid 3 4\nundo", &steps)
}

#[test]
fn reads_steps_of_each_kind(rt: HostRuntime) -> Result<(), Fail> {
    let steps = [
        choose(1, 0, 0),
        forbid(2, 1, 1),
        choose(3, 2, 0),
        undo(4),
        undo(5),
        undo(6),
    ];
    has_steps(
        &rt,
        rt.alloc(),
        b"choose 0 0\nforbid 1 1\nchoose 2 0\nundo\nundo\nundo",
        &steps,
    )
}

/// The fault of a short text that is no steps file.
fn fault_of(rt: &impl Abort, alloc: Global, text: &[u8]) -> Option<StepFault> {
    assert!(rt; text.len() < 64);
    read_steps(alloc, text).err()
}

/// Whether at this line of a text nothing stands to be undone, and before it no line is at fault.
fn is_spent(rt: &impl Abort, alloc: Global, text: &[u8], line: u32) {
    let wanted = Some(StepFault::NothingToUndo { line });
    assert_eq!(rt; fault_of(rt, alloc, text), wanted, "of {text:?}");
}

/// Whether this line of a text is no step, and before it no line is at fault.
fn is_no_step(rt: &impl Abort, alloc: Global, text: &[u8], line: u32) {
    let wanted = Some(StepFault::BadLine { line });
    assert_eq!(rt; fault_of(rt, alloc, text), wanted, "of {text:?}");
}

#[test]
fn refuses_undoing(rt: HostRuntime) {
    let alloc = rt.alloc();
    is_spent(&rt, alloc, b"undo", 1);
    is_spent(&rt, alloc, b"# a\nchoose 0 0\nundo\n\nundo", 5);
    // The first line at fault, of both kinds.
    is_spent(&rt, alloc, b"undo\nundo 1", 1);
    is_no_step(&rt, alloc, b"undo 1\nundo", 1);
    is_no_step(&rt, alloc, b"choose 0 0\nundo\nchoose\nundo", 3);
}

#[test]
fn refuses_steps(rt: HostRuntime) {
    let texts = [
        // Too few words, and too many.
        b"choose 0".as_slice(),
        b"choose",
        b"forbid 0 0 0",
        // Other words, also one of the other kind of file.
        b"undo undo",
        b"Undo",
        b"pin 0 0 a",
        b"chose 0 0",
        // Numbers that are none, or too great.
        b"choose 0 65536",
        b"choose 4294967296 0",
        b"forbid 0 1.0",
    ];
    for text in texts {
        is_no_step(&rt, rt.alloc(), text, 1);
    }
}

#[test]
fn refuses_large_steps_files(rt: HostRuntime) -> Result<(), Fail> {
    let text = repeated(rt.alloc(), b"", b"choose 1 2\nundo\n", 50_000, b"undo")?;
    assert!(rt; text.len() < 2_000_000);
    let found = read_steps(rt.alloc(), &text).err();
    assert_eq!(rt; found, Some(StepFault::NothingToUndo { line: 100_001 }));
    Ok(())
}

#[test]
fn reads_large_steps_files(rt: HostRuntime) -> Result<(), Fail> {
    let text = repeated(rt.alloc(), b"", b"choose 1 2\nundo\n", 50_000, b"")?;
    assert!(rt; text.len() < 2_000_000);
    assert_eq!(rt; read_steps(rt.alloc(), &text)?.len(), 100_000);
    Ok(())
}

/// What may stand beside each of two values in each direction: the other, to the left and to the right.
fn supports(alloc: Global) -> Result<Vec<Vec<u16>>, AllocError> {
    let lists: [&[u16]; 8] = [&[1], &[], &[1], &[], &[0], &[], &[0], &[]];
    let mut supports = Vec::new(alloc);
    for list in lists {
        supports.push(list.to_vec(alloc)?)?;
    }
    Ok(supports)
}

/// Three cells in a row of two values; each cell may have both.
fn row(alloc: Global) -> Result<Problem, Fail> {
    let parts = Parts {
        cells: 3,
        dirs: 4,
        neighbours: [
            NO_CELL, NO_CELL, 1, NO_CELL, 0, NO_CELL, 2, NO_CELL, 1, NO_CELL, NO_CELL, NO_CELL,
        ]
        .to_vec(alloc)?,
        weights: [1, 1].to_vec(alloc)?,
        supports: supports(alloc)?,
        base: [true, true, true, true, true, true].to_vec(alloc)?,
    };
    Ok(Problem::new(parts)?)
}

/// Whether steps fit a problem, or else the first line that is out of range.
fn fit(rt: &impl Abort, problem: &Problem, steps: &[StepLine], wanted: Option<u32>) {
    let wanted = wanted.map(|line| RangeFault::OutOfRange { line });
    assert_eq!(rt; steps_fit(steps, problem).err(), wanted);
}

#[test]
fn steps_fit_a_problem(rt: HostRuntime) -> Result<(), Fail> {
    let problem = row(rt.alloc())?;
    fit(&rt, &problem, &[], None);
    let steps = [choose(1, 2, 1), undo(2), forbid(4, 0, 0)];
    fit(&rt, &problem, &steps, None);
    fit(&rt, &problem, &[choose(1, 3, 0)], Some(1));
    fit(&rt, &problem, &[forbid(7, 0, 2)], Some(7));
    // The first line out of range is named.
    let steps = [undo(1), choose(2, 0, 2), choose(3, 9, 9)];
    fit(&rt, &problem, &steps, Some(2));
    fit(&rt, &problem, &[choose(1, u32::MAX, 0)], Some(1));
    Ok(())
}
