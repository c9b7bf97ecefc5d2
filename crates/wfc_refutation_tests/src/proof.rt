ghost use Rattle.std.specs.Prelude.{◌≡◌, false};
ghost use Rattle.wfc_proof.specs.Journal.{IsWhole};

use std::alloc::{AllocError, Global};
use std::process::Abort;
use std::test::Fail;
use wfc_outside::{MemorySink, SinkFault};
use wfc_problem::{NO_CELL, Parts, Problem};
use wfc_proof::{
    Format, HeadNumbers, Journal, JournalFault, Line, LineFault, ProofJournal, Quiet, Shape,
    SpanJournal, read_format, read_line, read_line_2, read_numbers, read_shape, write_header,
    write_header_2, write_line,
};

/// What a journal answers to a line that is no span.
fn tell<J: Journal>(journal: &mut J, line: Line) -> Result<(), JournalFault>
    requires whole { IsWhole line }
    requires going { (J.seen journal.old).failed ≡ false }
{
    journal.line(line)
}

/// A quiet journal takes this line.
fn takes_quietly(rt: &impl Abort, line: Line)
    requires whole { IsWhole line }
{
    assert_eq!(rt; tell(&mut Quiet, line), Ok(()));
}

#[test]
fn a_quiet_journal_takes_every_line(rt: HostRuntime) {
    takes_quietly(
        &rt,
        Line::Remove {
            cell: 1,
            value: 2,
            dir: 3,
        },
    );
    takes_quietly(
        &rt,
        Line::Span {
            cell: 1,
            first: 2,
            last: 5,
            dir: 3,
        },
    );
    takes_quietly(&rt, Line::Try { cell: 1, value: 2 });
    takes_quietly(&rt, Line::Empty { cell: 1 });
    takes_quietly(&rt, Line::End);
    takes_quietly(&rt, Line::Found);
    takes_quietly(&rt, Line::Out);
}

const REMOVE: Line = Line::Remove {
    cell: 10,
    value: 2,
    dir: 3,
};

const SPAN: Line = Line::Span {
    cell: 10,
    first: 2,
    last: 40,
    dir: 3,
};

const TRY: Line = Line::Try {
    cell: 4_294_967_295,
    value: 65_535,
};

/// A line as both formats read it.
fn reads_as(
    rt: &impl Abort,
    bytes: &[u8],
    one: Result<Line, LineFault>,
    two: Result<Line, LineFault>,
) {
    let read = (read_line(bytes), read_line_2(bytes));
    assert_eq!(rt; read, (one, two), "of {bytes:?}");
}

/// A line that both formats read alike.
fn reads_alike(rt: &impl Abort, bytes: &[u8], line: Line) {
    reads_as(rt, bytes, Ok(line), Ok(line));
}

/// Bytes that are no line of either format.
fn reads_none(rt: &impl Abort, bytes: &[u8]) {
    reads_as(rt, bytes, Err(LineFault::BadLine), Err(LineFault::BadLine));
}

#[test]
fn reads_lines(rt: HostRuntime) {
    let none = Err(LineFault::BadLine);
    reads_as(&rt, b"r 10 2 3", Ok(REMOVE), none);
    reads_as(&rt, b"r 10 2 40 3", none, Ok(SPAN));
    reads_alike(&rt, b"t 4294967295 65535", TRY);
    reads_alike(&rt, b"x 0", Line::Empty { cell: 0 });
    reads_alike(&rt, b"q", Line::End);
    reads_alike(&rt, b"s", Line::Found);
    reads_alike(&rt, b"o", Line::Out);
}

#[test]
fn reads_what_is_no_line(rt: HostRuntime) {
    reads_none(&rt, b"r 10 40 2 3");
    reads_none(&rt, b"t 4294967296 65535");
    reads_none(&rt, b"t 4294967295 65536");
    reads_none(&rt, b"r 0 0 256");
    reads_none(&rt, b"x 00");
    reads_none(&rt, b"x  0");
    reads_none(&rt, b"x 0 ");
    reads_none(&rt, b"q\r");
    reads_none(&rt, b"");
}

#[test]
fn reads_formats(rt: HostRuntime) {
    let none = Err(LineFault::BadLine);
    assert_eq!(rt; read_format(b"wfc-refutation 1"), Ok(Format::One));
    assert_eq!(rt; read_format(b"wfc-refutation 2"), Ok(Format::Two));
    assert_eq!(rt; read_format(b"wfc-refutation 3"), none);
}

#[test]
fn reads_numbers_of_heads(rt: HostRuntime) {
    let none = Err(LineFault::BadLine);
    let numbers = HeadNumbers {
        cells: 2,
        values: 4_294_967_295,
    };
    assert_eq!(rt; read_numbers(b"cells 2 values 4294967295"), Ok(numbers));
    assert_eq!(rt; read_numbers(b"cells 02 values 1"), none);
    assert_eq!(rt; read_numbers(b"cells 2 values 1 "), none);
}

/// A shape, or none.
fn reads_shape(rt: &impl Abort, bytes: &[u8], want: Result<Shape, LineFault>) {
    assert_eq!(rt; read_shape(bytes), want);
}

#[test]
fn reads_heads(rt: HostRuntime) {
    let none = Err(LineFault::BadLine);
    let shape = Shape {
        n: 2,
        width: 3,
        height: 4,
        depth: 1,
        symmetry: 8,
        wrap_in: true,
        wrap_out: false,
    };
    reads_shape(&rt, b"for 2 3 4 1 8 1 0", Ok(shape));
    reads_shape(&rt, b"for 7 3 4 1 8 1 0", none);
    reads_shape(&rt, b"for 2 3 4 1 256 1 0", none);
    reads_shape(&rt, b"for 2 3 4 1 8 1 2", none);
}

/// A sink takes this line.
fn writes(rt: &impl Abort, sink: &mut MemorySink, line: Line)
    requires whole { IsWhole line }
{
    assert_eq!(rt; write_line(sink, line), Ok(()));
}

/// A sink takes the heads of both formats.
fn writes_heads(rt: &impl Abort, sink: &mut MemorySink) {
    let shape = Shape {
        n: 0,
        width: 2,
        height: 2,
        depth: 1,
        symmetry: 1,
        wrap_in: false,
        wrap_out: true,
    };
    assert_eq!(rt; write_header(sink, 4, 2), Ok(()));
    assert_eq!(rt; write_header_2(sink, &shape, 12, 65_535), Ok(()));
}

#[test]
fn writes_heads_and_lines(rt: HostRuntime) -> Result<(), Fail> {
    let mut sink = MemorySink::new(rt.alloc(), 7, 200)?;
    writes_heads(&rt, &mut sink);
    writes(&rt, &mut sink, REMOVE);
    writes(&rt, &mut sink, SPAN);
    writes(&rt, &mut sink, TRY);
    writes(&rt, &mut sink, Line::Empty { cell: 7 });
    writes(&rt, &mut sink, Line::End);
    writes(&rt, &mut sink, Line::Found);
    writes(&rt, &mut sink, Line::Out);
    let wanted: &[u8] =
        b"wfc-refutation 1\ncells 4 values 2\nwfc-refutation 2\ncells 12 values 65535\nfor 0 2 2 1 1 0 1\n\
          r 10 2 3\nr 10 2 40 3\nt 4294967295 65535\nx 7\nq\ns\no\n";
    assert_eq!(rt; sink.bytes(), wanted);
    Ok(())
}

#[test]
fn a_full_sink_has_a_front_of_the_line(rt: HostRuntime) -> Result<(), Fail> {
    let mut sink = MemorySink::new(rt.alloc(), 3, 5)?;
    assert_eq!(rt; write_line(&mut sink, REMOVE), Err(SinkFault::Failed));
    assert_eq!(rt; sink.bytes(), b"r 10 ".as_slice());
    Ok(())
}

/// What a journal answers to removals of two cells and two directions, some of whose values follow, to the ends of
/// branches, and to this line.
fn tell_turn<J: Journal>(journal: &mut J, last: Line) -> Result<(), JournalFault>
    requires whole { IsWhole last }
    requires going { (J.seen journal.old).failed ≡ false }
{
    journal.line(Line::Remove {
        cell: 1,
        value: 4,
        dir: 2,
    })?;
    journal.line(Line::Span {
        cell: 1,
        first: 5,
        last: 7,
        dir: 2,
    })?;
    journal.line(Line::Remove {
        cell: 1,
        value: 8,
        dir: 0,
    })?;
    journal.line(Line::Remove {
        cell: 1,
        value: 9,
        dir: 0,
    })?;
    journal.line(Line::Remove {
        cell: 2,
        value: 10,
        dir: 0,
    })?;
    journal.line(Line::Remove {
        cell: 2,
        value: 12,
        dir: 0,
    })?;
    journal.line(Line::Try { cell: 2, value: 11 })?;
    journal.line(Line::Empty { cell: 1 })?;
    journal.line(last)
}

/// Two cells side by side, with one value that may stand beside itself.
fn pair(alloc: Global) -> Result<Parts, AllocError> {
    let mut supports = Vec::new(alloc);
    for _ in 0..4 {
        supports.push(vec![in alloc; 0]?)?;
    }
    Ok(Parts {
        cells: 2,
        dirs: 4,
        neighbours: vec![in alloc; NO_CELL, NO_CELL, 1, NO_CELL, 0, NO_CELL, NO_CELL, NO_CELL]?,
        weights: vec![in alloc; 1]?,
        supports,
        base: vec![in alloc; true, true]?,
    })
}

const SHAPE: Shape = Shape {
    n: 0,
    width: 2,
    height: 1,
    depth: 1,
    symmetry: 1,
    wrap_in: false,
    wrap_out: false,
};

#[test]
fn a_journal_writes_what_it_is_told(rt: HostRuntime) -> Result<(), Fail> {
    let problem = Problem::new(pair(rt.alloc())?)?;
    let mut sink = MemorySink::new(rt.alloc(), 7, 400)?;
    let mut journal = ProofJournal::begin(&mut sink, &problem)?;
    assert_eq!(rt; tell_turn(&mut journal, Line::End), Ok(()));
    let wanted: &[u8] =
        b"wfc-refutation 1\ncells 2 values 1\nr 1 4 2\nr 1 5 2\nr 1 6 2\nr 1 7 2\nr 1 8 0\nr 1 9 0\nr 2 10 0\nr 2 12 0\nt 2 11\nx 1\nq\n";
    assert_eq!(rt; sink.bytes(), wanted);
    Ok(())
}

#[test]
fn a_journal_joins_what_it_is_told(rt: HostRuntime) -> Result<(), Fail> {
    let problem = Problem::new(pair(rt.alloc())?)?;
    let mut sink = MemorySink::new(rt.alloc(), 7, 400)?;
    let mut journal = SpanJournal::begin(&mut sink, &problem, &SHAPE)?;
    assert_eq!(rt; tell_turn(&mut journal, Line::Found), Ok(()));
    let wanted: &[u8] =
        b"wfc-refutation 2\ncells 2 values 1\nfor 0 2 1 1 1 0 0\nr 1 4 7 2\nr 1 8 9 0\nr 2 10 10 0\nr 2 12 12 0\nt 2 11\nx 1\ns\n";
    assert_eq!(rt; sink.bytes(), wanted);
    Ok(())
}

#[test]
fn a_journal_over_a_full_sink_fails(rt: HostRuntime) -> Result<(), Fail> {
    let problem = Problem::new(pair(rt.alloc())?)?;
    let mut short = MemorySink::new(rt.alloc(), 7, 30)?;
    assert!(rt; ProofJournal::begin(&mut short, &problem).is_err());
    let wanted = b"wfc-refutation 1\ncells 2 value".as_slice();
    assert_eq!(rt; short.bytes(), wanted);
    Ok(())
}

#[test]
fn a_journal_whose_sink_is_full_later_fails(rt: HostRuntime) -> Result<(), Fail> {
    let problem = Problem::new(pair(rt.alloc())?)?;
    let mut sink = MemorySink::new(rt.alloc(), 7, 60)?;
    let mut journal = SpanJournal::begin(&mut sink, &problem, &SHAPE)?;
    let told = tell_turn(&mut journal, Line::Out);
    assert_eq!(rt; told, Err(JournalFault::Failed));
    assert_eq!(rt;
        sink.bytes(),
        b"wfc-refutation 2\ncells 2 values 1\nfor 0 2 1 1 1 0 0\nr 1 4 7 ".as_slice()
    );
    Ok(())
}
