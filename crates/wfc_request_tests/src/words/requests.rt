//! The requests of words.

use super::read;
use std::process::Abort;
use std::test::Fail;
use wfc_choose::RuleKind;
use wfc_render::Form;
use wfc_words::{CommandKind, Request, SourceModel};

/// Words of the same map of tiles, one line for each command.
static MASKS: [&str; 5] = [
    "fill a.toml tiles 3 4 --pins p.txt --mask m.txt",
    "domains a.toml tiles 3 4 --mask=m.txt --pins=p.txt",
    "refute --mask m.txt a.toml tiles 3 4 --pins p.txt",
    "check a.toml tiles 3 4 r.txt --mask m.txt --pins p.txt",
    "upgrade a.toml tiles 3 --pins p.txt 4 --mask m.txt r.txt",
];

/// The sample and the map of `reads_fill`.
fn has_windows(rt: &impl Abort, asked: &Request) {
    assert!(rt; asked.command == CommandKind::Fill && asked.file() == "chk.txt");
    assert!(rt; asked.source == SourceModel::Overlap { n: 6 });
    assert!(rt; asked.width == 4096 && asked.height == 1 && asked.symmetry == 8);
}

/// The run and the form of `reads_fill`.
fn has_run(rt: &impl Abort, asked: &Request) {
    assert!(rt; asked.seed == 3 && asked.budget == 0 && asked.rule == RuleKind::Ranked);
    assert!(rt; asked.form == Some(Form::P3) && asked.number == 0 && asked.format == 2);
}

/// The edges and the files of `reads_fill`.
fn has_files(rt: &impl Abort, asked: &Request) {
    assert!(rt; asked.wrap_in && asked.wrap_out && asked.pins() == Some(""));
    assert!(rt; asked.steps().is_none() && asked.refutation().is_none() && asked.mask().is_none());
}

#[test]
fn reads_fill(rt: HostRuntime) -> Result<(), Fail> {
    let text =
        "fill --seed=3 chk.txt 006 --budget 0 4096 1 --symmetry 8 --wrap-in --wrap-out --pins= --rule ranked --form p3";
    let asked = read(rt.alloc(), text)?;
    has_windows(&rt, &asked);
    has_run(&rt, &asked);
    has_files(&rt, &asked);
    Ok(())
}

#[test]
fn reads_learn(rt: HostRuntime) -> Result<(), Fail> {
    let plain = read(rt.alloc(), "learn - tiles")?;
    assert!(rt;
        plain.command == CommandKind::Learn
            && plain.file() == "-"
            && plain.source == SourceModel::Tiles
    );
    Ok(())
}

#[test]
fn reads_domains(rt: HostRuntime) -> Result<(), Fail> {
    let steps = read(rt.alloc(), "domains -- --a 2 3 4")?;
    assert!(rt;
        steps.file() == "--a" && steps.steps().is_none() && steps.width == 3 && steps.height == 4
    );
    Ok(())
}

#[test]
fn reads_steps(rt: HostRuntime) -> Result<(), Fail> {
    let steps = read(rt.alloc(), "domains a tiles 3 4 --steps s")?;
    assert!(rt; steps.steps() == Some("s") && steps.mask().is_none() && !steps.wrap_in);
    Ok(())
}

#[test]
fn reads_refute(rt: HostRuntime) -> Result<(), Fail> {
    let refuted = read(
        rt.alloc(),
        "refute a 2 3 4 --seed 18446744073709551615 --format 1",
    )?;
    assert!(rt;
        refuted.seed == u64::MAX && refuted.format == 1 && refuted.rule == RuleKind::Fewest
    );
    Ok(())
}

#[test]
fn reads_check(rt: HostRuntime) -> Result<(), Fail> {
    let checked = read(rt.alloc(), "check a 2 3 4 r")?;
    assert!(rt;
        checked.refutation() == Some("r") && checked.budget == 1_000_000 && checked.symmetry == 1
    );
    Ok(())
}

#[test]
fn reads_upgrade(rt: HostRuntime) -> Result<(), Fail> {
    let upgraded = read(rt.alloc(), "upgrade a 2 3 4 r")?;
    assert!(rt; upgraded.command == CommandKind::Upgrade && upgraded.form.is_none());
    Ok(())
}

#[test]
fn reads_demo(rt: HostRuntime) -> Result<(), Fail> {
    let shown = read(rt.alloc(), "demo 0001000000")?;
    assert!(rt;
        shown.number == 1_000_000
            && shown.file() == ""
            && shown.source == SourceModel::Overlap { n: 0 }
    );
    Ok(())
}

#[test]
fn reads_grow(rt: HostRuntime) -> Result<(), Fail> {
    let grown = read(rt.alloc(), "grow a 6 3 4 --block 6")?;
    assert!(rt;
        grown.command == CommandKind::Grow
            && grown.source == SourceModel::Overlap { n: 6 }
            && grown.block == 6
    );
    Ok(())
}

#[test]
fn reads_blocks(rt: HostRuntime) -> Result<(), Fail> {
    let plain = read(rt.alloc(), "grow a 2 3 4 --rule scanline")?;
    assert!(rt; plain.block == 512 && plain.depth == 0 && plain.rule == RuleKind::Scanline);
    Ok(())
}

#[test]
fn reads_box_fill(rt: HostRuntime) -> Result<(), Fail> {
    let boxed = read(rt.alloc(), "box-fill a 2 3 256 --rule ranked --form grid")?;
    assert!(rt; boxed.command == CommandKind::BoxFill && boxed.depth == 256 && boxed.height == 3);
    assert!(rt; boxed.rule == RuleKind::Ranked && boxed.form == Some(Form::Grid));
    assert!(rt; boxed.source == SourceModel::Overlap { n: 0 } && !boxed.wrap_out);
    Ok(())
}

#[test]
fn reads_box_refute(rt: HostRuntime) -> Result<(), Fail> {
    let refuted = read(rt.alloc(), "box-refute a 2 3 1 --format 1 --pins p")?;
    assert!(rt; refuted.format == 1 && refuted.depth == 1 && refuted.pins() == Some("p"));
    Ok(())
}

#[test]
fn reads_box_check(rt: HostRuntime) -> Result<(), Fail> {
    let checked = read(rt.alloc(), "box-check a 2 3 4 r --wrap-out")?;
    assert!(rt; checked.refutation() == Some("r") && checked.depth == 4 && checked.wrap_out);
    Ok(())
}

/// A text asks for the map of tiles with these pins and this mask.
fn reads_mask(rt: &(impl Abort + AllocGlobal), text: &str) -> Result<(), Fail> {
    let asked = read(rt.alloc(), text)?;
    has_tiles(rt, text, &asked);
    has_mask(rt, text, &asked);
    Ok(())
}

/// The map of tiles of `MASKS`.
fn has_tiles(rt: &impl Abort, text: &str, asked: &Request) {
    let of_tiles = asked.source == SourceModel::Tiles && asked.file() == "a.toml";
    assert!(rt;
        of_tiles && asked.width == 3 && asked.height == 4,
        "of {text:?}"
    );
}

/// The pins and the mask of `MASKS`.
fn has_mask(rt: &impl Abort, text: &str, asked: &Request) {
    let pinned = asked.pins() == Some("p.txt");
    assert!(rt; pinned && asked.mask() == Some("m.txt"), "of {text:?}");
}

#[test]
fn reads_masks(rt: HostRuntime) -> Result<(), Fail> {
    for text in &MASKS {
        reads_mask(&rt, text)?;
    }
    Ok(())
}
