//! Volumes by hand.

use crate::problems::grid;
use std::alloc::Global;
use std::process::Abort;
use std::test::Fail;
use wfc_domains::Domains;
use wfc_problem::Problem;
use wfc_search::volume;

/// The volume of a grid whose sides are joined, with all its values or none.
fn volume_is(
    rt: &impl Abort,
    alloc: Global,
    width: u16,
    height: u16,
    values: u16,
    full: bool,
    want: Option<u32>,
) -> Result<(), Fail> {
    let mut parts = grid(alloc, width, height, values, true)?;
    if !full {
        let pairs = parts.base.len();
        parts.base = vec![in alloc; false; pairs]?;
    }
    let problem = Problem::new(parts)?;
    let domains = Domains::new(alloc, &problem)?;
    assert_eq!(rt; volume(&problem, &domains), want, "{width} by {height}");
    Ok(())
}

#[test]
fn volumes_are_products(rt: HostRuntime) -> Result<(), Fail> {
    let alloc = rt.alloc();
    // Nine cells of two values.
    volume_is(&rt, alloc, 3, 3, 2, true, Some(512))?;
    // A product that is the limit, and one above it.
    volume_is(&rt, alloc, 9, 1, 10, true, Some(1_000_000_000))?;
    volume_is(&rt, alloc, 30, 1, 2, true, None)?;
    volume_is(&rt, alloc, 60, 50, 1, true, Some(1))?;
    // Empty cells make it 0, whatever there are before and behind them.
    volume_is(&rt, alloc, 40, 1, 9, false, Some(0))
}
