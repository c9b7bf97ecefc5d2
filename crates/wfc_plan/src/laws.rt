//! Laws of the definitions, each a function with no body whose contract is the law. They run nothing.

ghost use Rattle.std.specs.Prelude.{Err, List, Ok, Some, [], map, ◌∷◌, ◌≡◌, ◌⊎◌};
ghost use Rattle.wfc_choose.specs.declared.RuleKind.TheVariants.{Fewest, Ranked, Scanline};
ghost use Rattle.wfc_outside.specs.Folder.{File};
ghost use Rattle.wfc_outside.specs.declared.whole.ReadFault.TheVariants.{Failed, Missing, TooLong};
ghost use Rattle.wfc_outside.specs.declared.whole.ReadFault.TheVariants as reading;
ghost use Rattle.wfc_pattern.specs.declared.learning.LearnFault.TheVariants as learning;
ghost use Rattle.wfc_pattern.specs.declared.learning.LearnFault.TheVariants.{SampleBelowN};
ghost use Rattle.wfc_plan.specs.Fault.{class_of, status_of};
ghost use Rattle.wfc_plan.specs.Files.{AreReadAs};
ghost use Rattle.wfc_plan.specs.Kinds.{HasChoosers, enough};
ghost use Rattle.wfc_plan.specs.Order.{AreInOrder, IsFirstFault};
ghost use Rattle.wfc_plan.specs.Plan.{Goes, most_bytes};
ghost use Rattle.wfc_plan.specs.Reaching.{Reaches};
ghost use Rattle.wfc_plan.specs.Refusing.{IsMadeInOrder, IsRefusedInOrder};
ghost use Rattle.wfc_plan.specs.Small.{first_file, folder_telling, second_file, two_files_order, two_files_plan};
ghost use Rattle.wfc_plan.specs.Small.{IsLearnRefusal, two_missing_order, wrong_refusals};
ghost use Rattle.wfc_plan.specs.declared.fault.Fault.{Fault};
ghost use Rattle.wfc_plan.specs.declared.fault.Fault.TheVariants.{Refused, Unread};
ghost use Rattle.wfc_plan.specs.declared.fault.FaultClass.TheVariants.{Input};
ghost use Rattle.wfc_plan.specs.declared.fault.Refusal.TheVariants as refusals;
ghost use Rattle.wfc_plan.specs.declared.fault.Source.TheVariants.{Pins, Sample};

/// How many choosers are enough, by example.
pub fn choosers_are_counted_by_example()
    ensures one { enough 1 (Scanline ∷ Fewest ∷ Fewest ∷ []) Fewest ≡ Ok tt }
    ensures two { enough 2 (Fewest ∷ Scanline ∷ Fewest ∷ []) Fewest ≡ Ok tt }
    ensures three { enough 3 (Fewest ∷ Scanline ∷ Fewest ∷ []) Fewest
        ≡ Err (refusals.Chooser Fewest) }
    ensures other { enough 1 (Scanline ∷ Fewest ∷ []) Ranked ≡ Err (refusals.Chooser Ranked) }
    ensures there { HasChoosers 1 (Fewest ∷ Scanline ∷ []) Scanline }
    ensures lacking { HasChoosers 2 (Fewest ∷ Scanline ∷ []) Scanline → ⊥ }
{}

/// The status of a fault of each class, by example.
pub fn faults_have_statuses()
    ensures missing { status_of (Unread Pins Missing) ≡ 5 }
    ensures failed { status_of (Unread Pins Failed) ≡ 5 }
    ensures long { status_of (Unread Pins TooLong) ≡ 4 }
    ensures short { status_of (Unread Pins reading.NoMemory) ≡ 6 }
    ensures chooser { status_of (Refused (refusals.Chooser Fewest)) ≡ 7 }
    ensures memory { status_of (Refused refusals.NoMemory) ≡ 6 }
    ensures limit { status_of (Refused (refusals.RaceTooLarge 8388609)) ≡ 4 }
    ensures many { status_of (Refused (refusals.TooManyPins 65)) ≡ 4 }
    ensures blocks { status_of (Refused (refusals.TooManyBlocks 65)) ≡ 4 }
{}

/// A fault of what was given has one class, whatever step found it.
pub fn refusals_have_classes()
    ensures wrong { map class_of wrong_refusals ≡ map (λ refusal. Input) wrong_refusals }
{}

/// What the fault of a step becomes, by example: want of memory is told alike of all steps, and any other fault as its own.
pub fn faults_become_refusals_by_example()
    ensures short { IsLearnRefusal learning.NoMemory refusals.NoMemory }
    ensures kept { IsLearnRefusal learning.NoMemory (refusals.Learn learning.NoMemory) → ⊥ }
    ensures own { IsLearnRefusal SampleBelowN (refusals.Learn SampleBelowN) }
    ensures hidden { IsLearnRefusal SampleBelowN refusals.NoMemory → ⊥ }
{}

/// How a call goes by a plan, by example: where neither of two files is there, the first is the one that is missing.
pub fn plans_go_by_example()
    ensures both { Goes two_files_plan (folder_telling (first_file ∷ second_file ∷ []))
        (folder_telling (first_file ∷ second_file ∷ [])) (Ok 0) }
    ensures first { Goes two_files_plan (folder_telling []) (folder_telling [])
        (Err (Unread Sample Missing)) }
    ensures second { Goes two_files_plan (folder_telling (first_file ∷ []))
        (folder_telling (first_file ∷ [])) (Err (Unread Pins Missing)) }
    ensures exchanged { Goes two_files_plan (folder_telling []) (folder_telling [])
        (Err (Unread Pins Missing)) → ⊥ }
    ensures left_out { Goes two_files_plan (folder_telling []) (folder_telling []) (Ok 0) → ⊥ }
{}

/// Of two files that are read one after the other, the first that is missing or too long is the one refused.
pub fn two_files_are_refused_in_order()
    ensures refused { (files : List File) →
        IsRefusedInOrder two_files_plan files (two_files_order files) }
    ensures made { (files : List File) →
        IsMadeInOrder two_files_plan files (two_files_order files) }
{}

/// The first fault of some stages is that of the first at fault, by example.
pub fn first_faults_by_example()
    ensures first { (fault : Fault) →
        IsFirstFault two_missing_order fault → fault ≡ Unread Pins Missing }
    ensures second { IsFirstFault ((λ f. ⊥) ∷ (λ f. f ≡ Unread Sample Missing) ∷ [])
        (Unread Sample Missing) }
    ensures past { (fault : Fault) → IsFirstFault ((λ f. ⊥) ∷ []) fault → ⊥ }
    ensures none { AreInOrder ((λ f. ⊥) ∷ (λ f. ⊥) ∷ []) }
    ensures some { AreInOrder ((λ f. ⊥) ∷ (λ f. f ≡ Unread Sample Missing) ∷ []) → ⊥ }
{}

/// Which file a plan comes to, by example: the second of two files where the folder has the first, and else the first alone.
pub fn files_are_reached_by_example()
    ensures first { Reaches two_files_plan (folder_telling []) Sample (97 ∷ []) }
    ensures second { Reaches two_files_plan (folder_telling (first_file ∷ [])) Pins (98 ∷ []) }
    ensures hidden { Reaches two_files_plan (folder_telling []) Pins (98 ∷ []) → ⊥ }
    ensures role { Reaches two_files_plan (folder_telling []) Pins (97 ∷ []) → ⊥ }
{}

/// A file that is read whole has at most 16,777,216 bytes, whatever it is read for; one with a byte more is too long.
pub fn files_have_a_limit()
    ensures bytes { most_bytes ≡ Some 16777216 }
    ensures most { AreReadAs 16777216 (λ source bytes. Ok bytes) }
    ensures more { AreReadAs 16777217 (λ source bytes. Err (Unread source TooLong)) }
{}
