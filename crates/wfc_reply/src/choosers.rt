//! The choosers that the caller hands in.

ghost use Rattle.std.specs.Prelude.{IfOk, Some, length, map, nat_lt, ◌&&◌, ◌<◌, ◌≡◌};
ghost use Rattle.wfc_plan.specs.Kinds.{HasChoosers, same_rule};
ghost use Rattle.wfc_reply.specs.Choosers.{first_rule, first_rules, kinds_of};

use std::alloc::Global;
use wfc_choose::{Chooser, RuleKind};
use wfc_outside::NoMemory;

/// The kind of a chooser's rule.
fn kind_of(chooser: &Box<dyn Chooser>) -> RuleKind
    ensures value { result ≡ (told chooser.now).rule.kind }
{
    chooser.kind()
}

/// The kinds of the choosers, in their order.
pub fn kinds(alloc: Global, choosers: &[Box<dyn Chooser>]) -> Result<Vec<RuleKind>, NoMemory>
    ensures value { IfOk result
        (λ kinds. kinds.items ≡ kinds_of (map (λ chooser. (told chooser).rule) choosers.now)) }
{
    let mut kinds = Vec::with_capacity(alloc, choosers.len())?;
    for chooser in choosers {
        kinds.push(kind_of(chooser))?;
    }
    Ok(kinds)
}

/// The first chooser of a kind. The others are dropped.
pub fn first_chooser(
    alloc: Global,
    choosers: Vec<Box<dyn Chooser>>,
    kind: RuleKind,
) -> Result<Box<dyn Chooser>, NoMemory>
    requires there { HasChoosers 1 (kinds_of (map (λ chooser. (told chooser).rule) choosers.items))
        kind }
    ensures first { IfOk result (λ chooser. first_rule kind
        (map (λ chooser. (told chooser).rule) choosers.items) ≡ Some (told chooser).rule) }
{
    let mut taken = first_many(alloc, choosers, kind, 1)?;
    Ok(taken.remove(0))
}

/// The first so many choosers of a kind, in their order, or all of it where there are fewer. The others are dropped.
pub fn first_many(
    alloc: Global,
    choosers: Vec<Box<dyn Chooser>>,
    kind: RuleKind,
    many: u32,
) -> Result<Vec<Box<dyn Chooser>>, NoMemory>
    ensures first { IfOk result (λ taken. map (λ chooser. (told chooser).rule) taken.items
        ≡ first_rules many kind (map (λ chooser. (told chooser).rule) choosers.items)) }
{
    let mut choosers = choosers;
    let count = choosers.len();
    let mut taken = Vec::with_capacity(alloc, many as usize)?;
    for made in 0..count {
        let chooser = choosers.remove(0);
        if is_wanted(&chooser, kind, taken.len(), many) {
            taken.push(chooser)?;
        }
    }
    Ok(taken)
}

/// Whether a chooser is of the kind, where so many of the wanted ones are taken.
fn is_wanted(chooser: &Box<dyn Chooser>, kind: RuleKind, taken: usize, many: u32) -> bool
    ensures value { result ≡ (nat_lt taken many && same_rule kind (told chooser.now).rule.kind) }
{
    taken < many as usize && kind == kind_of(chooser)
}
