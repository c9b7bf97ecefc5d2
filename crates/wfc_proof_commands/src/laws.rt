//! Laws of the definitions, each a function with no body whose contract is the law. They run nothing.

ghost use Rattle.std.specs.Prelude.{Err, List, None, Ok, Option, Some, [], codes, false, true, ℕ, ◌∷◌, ◌≡◌};
ghost use Rattle.wfc_check.specs.declared.fault.CheckFault.{CheckFault};
ghost use Rattle.wfc_check.specs.declared.fault.CheckFault.TheVariants as faults;
ghost use Rattle.wfc_choose.specs.declared.RuleKind.{RuleKind};
ghost use Rattle.wfc_outside.specs.declared.whole.ReadFault.TheVariants.{Failed, Missing};
ghost use Rattle.wfc_plan.specs.Refusing.{IsMadeOf};
ghost use Rattle.wfc_plan.specs.declared.fault.Fault.{Fault};
ghost use Rattle.wfc_plan.specs.declared.fault.Fault.TheVariants.{Refused, Unread};
ghost use Rattle.wfc_plan.specs.declared.fault.Refusal.TheVariants as refusals;
ghost use Rattle.wfc_plan.specs.declared.fault.Source.TheVariants.{Refutation};
ghost use Rattle.wfc_problem.specs.Network.{Network};
ghost use Rattle.wfc_proof.specs.declared.Line.TheVariants.{Empty, End, Remove, Span, Try};
ghost use Rattle.wfc_proof.specs.declared.Reject.{Reject};
ghost use Rattle.wfc_proof.specs.declared.heads.Format.TheVariants.{One, Two};
ghost use Rattle.wfc_proof.specs.declared.heads.Shape.{Shape};
ghost use Rattle.wfc_proof_commands.specs.CheckAnswer.{check_answer};
ghost use Rattle.wfc_proof_commands.specs.Checking.{flat_proofs, found_in, shape_asked, verdict_in};
ghost use Rattle.wfc_proof_commands.specs.CheckGiven.{IsCheckTask};
ghost use Rattle.wfc_proof_commands.specs.CheckTask.{check, check_made, check_plan};
ghost use Rattle.wfc_reply.specs.Outcomes.{refute_status};
ghost use Rattle.wfc_proof_commands.specs.RefuteGiven.{IsRefuteTask};
ghost use Rattle.wfc_proof_commands.specs.RefuteTask.{refute, refute_made, refute_plan};
ghost use Rattle.wfc_reply.specs.Outcomes.{refute_verdict};
ghost use Rattle.wfc_reply.specs.RunText.{format_lines, written_format};
ghost use Rattle.wfc_proof_commands.specs.Small.{five_by_seven, five_by_seven_shape, removals_told};
ghost use Rattle.wfc_proof_commands.specs.UpgradeGiven.{IsUpgradeMade};
ghost use Rattle.wfc_proof_commands.specs.UpgradeTask.{upgrade, upgrade_made};
ghost use Rattle.wfc_proof_commands.specs.declared.upgrading.Upgrading.{Upgrading};
ghost use Rattle.wfc_reply.specs.Reply.{done_with, verdict_status};
ghost use Rattle.wfc_reply.specs.declared.reply.CommandVerdict.TheVariants as verdicts;
ghost use Rattle.wfc_search.specs.declared.Outcome.TheVariants as outcomes;
ghost use Rattle.wfc_words.specs.RequestView.{RequestView};
ghost use Rattle.wfc_words.specs.declared.kinds.SourceModel.TheVariants.{Overlap, Tiles};

/// `refute` comes to this task exactly where a chooser is there and the problem is that of the request.
pub fn refute_tasks_are_given()
    ensures task { (kinds : List RuleKind) (asked : RequestView) → IsMadeOf
        (refute_plan flat_proofs kinds asked) refute (IsRefuteTask flat_proofs kinds asked) }
{}

/// `upgrade` comes to this task exactly where the problem is that of the request, and the file of the refutation has these bytes.
pub fn upgrade_tasks_are_given()
    ensures task { (asked : RequestView) → IsUpgradeMade asked }
{}

/// `check` comes to this task exactly where the problem is that of the request, and this is what the file of the refutation is
/// answered.
pub fn check_tasks_are_given()
    ensures task { (asked : RequestView) →
        IsMadeOf (check_plan flat_proofs asked) check (IsCheckTask flat_proofs asked) }
{}

/// What `refute` writes and how it ends, by example: removals of one cell and direction whose values follow are one line of format 2.
pub fn refutations_by_example()
    ensures one { written_format 1 ≡ One }
    ensures two { written_format 2 ≡ Two }
    ensures plain { format_lines One (Remove 0 0 2 ∷ Remove 0 1 2 ∷ Empty 0 ∷ [])
        ≡ Remove 0 0 2 ∷ Remove 0 1 2 ∷ Empty 0 ∷ [] }
    ensures joined { format_lines Two removals_told
        ≡ Try 1 3 ∷ Span 0 0 1 2 ∷ Span 0 2 2 1 ∷ Span 4 3 3 1 ∷ Span 4 5 5 1 ∷ Empty 0 ∷ End ∷ [] }
    ensures map { verdict_status (refute_verdict 7 outcomes.Map) ≡ 1 }
    ensures no_map { verdict_status (refute_verdict 7 outcomes.NoMap) ≡ 0 }
    ensures spent { refute_verdict 7 outcomes.Spent ≡ verdicts.Spent 7 }
    ensures statuses { (refute_status outcomes.NoMap ≡ 0) × (refute_status outcomes.Map ≡ 1)
        × (refute_status outcomes.Spent ≡ 2) }
{}

/// What a fault of a check comes to as a task's, and as the answer to a text: a fault of the text is an answer, one of the file or
/// of memory is a fault of the task, and a text that is too long is refused.
pub fn faults_of_checks_by_example()
    ensures none { found_in (Ok tt) ≡ Ok None }
    ensures text { found_in (Err (faults.BadLine 3)) ≡ Ok (Some (faults.BadLine 3)) }
    ensures step { (line : ℕ) (reject : Reject) → found_in (Err (faults.Rejected line reject))
        ≡ Ok (Some (faults.Rejected line reject)) }
    ensures numbers { found_in (Err (faults.HeaderDiffers 4 3))
        ≡ Ok (Some (faults.HeaderDiffers 4 3)) }
    ensures shape { (other : Shape) → found_in (Err (faults.OptionsDiffer other))
        ≡ Ok (Some (faults.OptionsDiffer other)) }
    ensures not_ended { found_in (Err faults.NotEnded) ≡ Ok (Some faults.NotEnded) }
    ensures length { found_in (Err faults.TooLong) ≡ Err (Refused (refusals.TooLong Refutation)) }
    ensures file { found_in (Err faults.Missing) ≡ Err (Unread Refutation Missing) }
    ensures device { found_in (Err faults.Failed) ≡ Err (Unread Refutation Failed) }
    ensures memory { found_in (Err faults.NoMemory) ≡ Err (Refused refusals.NoMemory) }
    ensures answer { verdict_in (Err (faults.BadLine 3)) ≡ Ok (Some (faults.BadLine 3)) }
    ensures refused { verdict_in (Err faults.TooLong) ≡ Err (refusals.TooLong Refutation) }
{}

/// A task is made of what its call answers, and a fault is the call's.
pub fn tasks_are_made_of_answers()
    ensures check { (found : Option CheckFault) → check_made (Ok found) ≡ Ok (check found) }
    ensures check_fault { (fault : Fault) → check_made (Err fault) ≡ Err fault }
    ensures refute { (P : Network) → refute_made (Ok P) ≡ Ok (refute P) }
    ensures refute_fault { (fault : Fault) → refute_made (Err fault) ≡ Err fault }
    ensures upgrade { (made : Upgrading) → upgrade_made (Ok made)
        ≡ Ok (upgrade made.problem made.refutation.items) }
    ensures upgrade_fault { (fault : Fault) → upgrade_made (Err fault) ≡ Err fault }
{}

/// The shape that a refutation of a request tells, by example: its numbers in their order, and of a tile set no windows, one image and
/// no edges of a sample, whatever the words say.
pub fn shapes_by_example()
    ensures windows { shape_asked (five_by_seven (Overlap 3) false)
        ≡ five_by_seven_shape 3 8 true false }
    ensures tiles { shape_asked (five_by_seven Tiles true) ≡ five_by_seven_shape 0 1 false true }
{}

/// What `check` answers, by example: that a file is accepted where it has no fault, and nothing but the fault where it has one.
pub fn checks_are_answered_by_example()
    ensures accepted { check_answer None ≡ done_with (codes "accepted\n") }
    ensures fault { check_answer (Some (faults.BadLine 3))
        ≡ record { verdict = verdicts.Unaccepted (faults.BadLine 3); text = None; whole = true } }
{}
