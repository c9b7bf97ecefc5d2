//! How many choosers of a kind a command needs.

ghost use Rattle.std.specs.Prelude.{OnOk, ◌≡◌};
ghost use Rattle.wfc_plan.specs.Kinds.{HasChoosers, count_kinds, enough};

use crate::fault::Refusal;
use wfc_choose::RuleKind;

/// Whether so many choosers go by the rule, where these are the kinds of all of them.
pub fn enough(many: u32, kinds: &[RuleKind], rule: RuleKind) -> Result<(), Refusal>
    ensures exact { result ≡ enough many kinds.now rule }
    ensures there { OnOk result (HasChoosers many kinds.now rule) }
{
    if many as usize <= count_kinds(kinds, rule) {
        Ok(())
    } else {
        Err(Refusal::Chooser { rule })
    }
}

/// How many of these kinds are this one.
fn count_kinds(kinds: &[RuleKind], kind: RuleKind) -> usize
    ensures count { result ≡ count_kinds kind kinds.now }
{
    kinds.iter().filter(|other| **other == kind).count()
}
