//! Which patterns may stand beside which.

ghost use Rattle.std.specs.Prelude.{◌≡◌, ◌<◌, ◌++◌, length, map, IfOk, OnOk};
ghost use Rattle.wfc_model.specs.Direction.{opposite};
ghost use Rattle.wfc_overlap.specs.Sample.{all_agreeing, agreement_table};
ghost use Rattle.wfc_overlap.specs.Sides.{AreGrouped};

use crate::groups::{Groups, group, shared_part};
use std::alloc::Global;
use wfc_outside::NoMemory;
use wfc_pattern::Patterns;
use wfc_problem::opposite;

/// For each pattern and direction the patterns that agree with it there, in lists that take no more
/// memory than they need.
pub fn support_lists(alloc: Global, patterns: &Patterns) -> Result<Vec<Vec<u16>>, NoMemory>
    ensures value { IfOk result (λ lists.
        map (λ list. list.items) lists.items ≡ agreement_table patterns.now) }
{
    let groups = groups(alloc, patterns)?;
    let mut lists = Vec::with_capacity(alloc, patterns.count() as usize * 4)?;
    for p in 0..patterns.count() {
        push_lists(alloc, &mut lists, patterns, &groups, p)?;
    }
    Ok(lists)
}

/// For each direction the patterns by what they share with one beside them the other way.
fn groups(alloc: Global, patterns: &Patterns) -> Result<Vec<Groups>, NoMemory>
    ensures grouped { IfOk result (λ groups. AreGrouped patterns.now groups.items) }
{
    let mut groups = Vec::with_capacity(alloc, 4)?;
    for dir in 0..4 {
        groups.push(group(alloc, patterns, opposite(dir))?)?;
    }
    Ok(groups)
}

/// Writes the lists of a pattern behind the lists.
fn push_lists(
    alloc: Global,
    lists: &mut Vec<Vec<u16>>,
    patterns: &Patterns,
    groups: &[Groups],
    p: u16,
) -> Result<(), NoMemory>
    requires p_in { p < length patterns.now.windows }
    requires grouped { AreGrouped patterns.now groups.now }
    ensures lists { OnOk result (map (λ list. list.items) lists.new.items
        ≡ map (λ list. list.items) lists.old.items ++ all_agreeing patterns.now p) }
{
    for dir in 0..4 {
        let shared = shared_part(alloc, patterns.window(p), patterns.n(), dir)?;
        let agreeing = groups[dir as usize].get(&shared);
        lists.push(Vec::from_slice(alloc, agreeing)?)?;
    }
    Ok(())
}
