//! Laws of the definitions, each a function with no body whose contract is the law. They run nothing.

ghost use Rattle.std.specs.Prelude.{◌≡◌, ℕ, ◌-◌, ◌^◌, ◌+◌, true, false, List, [], ◌∷◌, codes, map};
ghost use Rattle.wfc_outside.specs.Cases.{counting_folder, telling_sink, three_files, three_taken, two_kept};
ghost use Rattle.wfc_outside.specs.Count.{CountsFaults, HasRisen, IsListedNext, next_count};
ghost use Rattle.wfc_outside.specs.Folder.{file_of, GivesFrom, IsFaultOf, IsMissing, IsToldAs};
ghost use Rattle.wfc_outside.specs.Gives.{Gives};
ghost use Rattle.wfc_outside.specs.MemoryFolder.{after_adding, after_call, after_failed_call, after_giving, bytes_of};
ghost use Rattle.wfc_outside.specs.MemoryFolder.{fresh_folder, folder_listing, given_count, seen_folder};
ghost use Rattle.wfc_outside.specs.MemorySink.{after_failing, after_finishing, after_taking, fresh_sink, IsToFail};
ghost use Rattle.wfc_outside.specs.MemorySink.{seen_sink, sink_failing_finish, sink_listing, taken_count};
ghost use Rattle.wfc_outside.specs.Sink.{after_bytes, after_finish, Finishes, IsFault, IsFaultAfterFront, Puts};
ghost use Rattle.wfc_outside.specs.Whole.{IsLongerThan};

use crate::MAX_FILE_BYTES;

/// The limits are these numbers.
pub fn limits_are()
    ensures file { MAX_FILE_BYTES ≡ 16777216 }
{}

/// A count rises, and stands only at its end.
pub fn counts_rise()
    ensures rises { HasRisen 3 5 }
    ensures ends { HasRisen (2 ^ 64 - 1) (2 ^ 64 - 1) }
    ensures stands { HasRisen 3 3 → ⊥ }
    ensures falls { HasRisen 5 3 → ⊥ }
    ensures more { next_count 3 ≡ 4 }
    ensures most { next_count (2 ^ 64 - 1) ≡ 2 ^ 64 - 1 }
    ensures quiet { CountsFaults {T = ℕ} {E = ℕ} 3 3 (Ok 7) }
    ensures loud { CountsFaults {T = ℕ} {E = ℕ} 3 4 (Err 7) }
    ensures twice { CountsFaults {T = ℕ} {E = ℕ} 3 5 (Err 7) → ⊥ }
    ensures listed { IsListedNext (2 ∷ 5 ∷ []) 4 }
    ensures unlisted { IsListedNext (2 ∷ 5 ∷ []) 5 → ⊥ }
{}

/// The first file of a name counts.
pub fn first_files_count()
    ensures first { file_of three_files (codes "a") ≡ Some (5 ∷ 6 ∷ 7 ∷ []) }
    ensures second { file_of three_files (codes "b") ≡ Some (8 ∷ []) }
    ensures none { file_of three_files (codes "c") ≡ None }
    ensures told { IsToldAs (Some three_files) (codes "a") (9 ∷ []) → ⊥ }
    ensures untold { IsToldAs None (codes "a") (9 ∷ []) }
{}

/// What is given of a file is what stands at the place, and nothing is given only at its end.
pub fn pieces_of_files()
    ensures middle { GivesFrom (Some three_files) (codes "a") 1 (6 ∷ 7 ∷ 0 ∷ []) 2 }
    ensures short { GivesFrom (Some three_files) (codes "a") 1 (6 ∷ 0 ∷ 0 ∷ []) 1 }
    ensures end { GivesFrom (Some three_files) (codes "a") 3 (0 ∷ []) 0 }
    ensures no_room { GivesFrom (Some three_files) (codes "a") 1 [] 0 }
    ensures others { GivesFrom (Some three_files) (codes "a") 1 (5 ∷ 6 ∷ []) 2 → ⊥ }
    ensures past { GivesFrom (Some three_files) (codes "a") 2 (7 ∷ 0 ∷ []) 2 → ⊥ }
    ensures more_than_there_are { GivesFrom (Some three_files) (codes "a") 2 (7 ∷ []) 2 → ⊥ }
    ensures nothing { GivesFrom (Some three_files) (codes "a") 2 (0 ∷ []) 0 → ⊥ }
    ensures missing { GivesFrom (Some three_files) (codes "c") 0 (0 ∷ []) 0 → ⊥ }
{}

/// A fault of a file is counted under its name, what is told stands, and no other count falls.
pub fn faults_of_files()
    ensures counted { IsFaultOf (counting_folder None 3 5) (counting_folder None 4 5) (codes "a") }
    ensures other_name { IsFaultOf (counting_folder None 3 5) (counting_folder None 3 6) (codes "a")
        → ⊥ }
    ensures fell { IsFaultOf (counting_folder None 3 5) (counting_folder None 4 4) (codes "a") → ⊥ }
    ensures forgot { IsFaultOf (counting_folder (Some three_files) 3 5) (counting_folder None 4 5)
        (codes "a") → ⊥ }
    ensures lacking { IsMissing (counting_folder (Some three_files) 3 5)
        (counting_folder (Some three_files) 3 5) (codes "c") }
    ensures there { IsMissing (counting_folder (Some three_files) 3 5)
        (counting_folder (Some three_files) 4 6) (codes "b") → ⊥ }
    ensures untold { IsMissing (counting_folder None 3 5) (counting_folder None 4 5) (codes "a") }
    ensures uncounted { IsMissing (counting_folder None 3 5) (counting_folder None 3 5) (codes "a")
        → ⊥ }
    ensures missing_forgot { IsMissing (counting_folder (Some three_files) 3 5)
        (counting_folder None 3 5) (codes "c") → ⊥ }
    ensures missing_fell { IsMissing (counting_folder (Some three_files) 3 5)
        (counting_folder (Some three_files) 3 4) (codes "c") → ⊥ }
    ensures longer { IsLongerThan (Some three_files) (codes "a") 2 }
    ensures not_longer { IsLongerThan (Some three_files) (codes "a") 3 → ⊥ }
{}

/// Bytes are put behind those that were taken, and make them unfinished. A fault takes a front of them at most.
pub fn texts_that_are_put()
    ensures behind { after_bytes (telling_sink (5 ∷ []) true 3) (6 ∷ 7 ∷ [])
        ≡ telling_sink (5 ∷ 6 ∷ 7 ∷ []) false 3 }
    ensures nothing { after_bytes (telling_sink (5 ∷ []) true 3) [] ≡ telling_sink (5 ∷ []) true 3 }
    ensures finished { after_finish (telling_sink (5 ∷ []) false 3) ≡ telling_sink (5 ∷ []) true 3 }
    ensures whole { Puts {T = ℕ} {E = ℕ} (telling_sink (5 ∷ []) true 3)
        (telling_sink (5 ∷ 6 ∷ 7 ∷ []) false 3) (6 ∷ 7 ∷ []) (Ok 0) }
    ensures front { Puts {T = ℕ} {E = ℕ} (telling_sink (5 ∷ []) true 3)
        (telling_sink (5 ∷ 6 ∷ []) false 4) (6 ∷ 7 ∷ []) (Err 0) }
    ensures no_front { Puts {T = ℕ} {E = ℕ} (telling_sink (5 ∷ []) true 3)
        (telling_sink (5 ∷ 7 ∷ []) false 4) (6 ∷ 7 ∷ []) (Err 0) → ⊥ }
    ensures uncounted { Puts {T = ℕ} {E = ℕ} (telling_sink (5 ∷ []) true 3)
        (telling_sink (5 ∷ 6 ∷ []) false 3) (6 ∷ 7 ∷ []) (Err 0) → ⊥ }
    ensures cut { Puts {T = ℕ} {E = ℕ} (telling_sink (5 ∷ []) true 3)
        (telling_sink (5 ∷ 6 ∷ []) false 3) (6 ∷ 7 ∷ []) (Ok 0) → ⊥ }
    ensures ended { Finishes {T = ℕ} {E = ℕ} (telling_sink (5 ∷ []) false 3)
        (telling_sink (5 ∷ []) true 3) (Ok 0) }
    ensures not_ended { Finishes {T = ℕ} {E = ℕ} (telling_sink (5 ∷ []) false 3)
        (telling_sink (5 ∷ []) false 4) (Err 0) }
    ensures half_ended { Finishes {T = ℕ} {E = ℕ} (telling_sink (5 ∷ []) false 3)
        (telling_sink (5 ∷ []) true 4) (Err 0) → ⊥ }
    ensures taken_more { IsFault (telling_sink (5 ∷ []) false 3) (telling_sink (5 ∷ 6 ∷ []) false 4)
        → ⊥ }
    ensures not_counted { IsFault (telling_sink (5 ∷ []) false 3) (telling_sink (5 ∷ []) false 3)
        → ⊥ }
    ensures counted_for_nothing { Finishes {T = ℕ} {E = ℕ} (telling_sink (5 ∷ []) false 3)
        (telling_sink (5 ∷ []) true 4) (Ok 0) → ⊥ }
{}

/// A computed answer is given through the view, and want of memory in its place, but no other fault.
pub fn answers_that_are_given()
    ensures value { Gives {X = ℕ} {E = ℕ} 7 (λ n. n + 1) (Ok 3) (Ok 4) }
    ensures fault { Gives {X = ℕ} {E = ℕ} 7 (λ n. n + 1) (Err 5) (Err 5) }
    ensures short { Gives {X = ℕ} {E = ℕ} 7 (λ n. n + 1) (Err 7) (Ok 4) }
    ensures other_value { Gives {X = ℕ} {E = ℕ} 7 (λ n. n + 1) (Ok 3) (Ok 3) → ⊥ }
    ensures other_fault { Gives {X = ℕ} {E = ℕ} 7 (λ n. n + 1) (Err 5) (Ok 4) → ⊥ }
{}

/// A folder in memory: what is added stands in place of what had the name, and faults are counted by name.
pub fn folders_in_memory()
    ensures replaced { bytes_of (after_adding two_kept (codes "a") (1 ∷ [])) (codes "a")
        ≡ Some (1 ∷ []) }
    ensures beside { bytes_of (after_adding two_kept (codes "a") (1 ∷ [])) (codes "b")
        ≡ Some (8 ∷ []) }
    ensures behind { map (λ file. file.bytes) (after_adding two_kept (codes "c") (1 ∷ [])).files
        ≡ (5 ∷ 6 ∷ 7 ∷ []) ∷ (8 ∷ []) ∷ (1 ∷ []) ∷ [] }
    ensures counted { map (λ file. file.faults) (after_failed_call two_kept (codes "b")).files
        ≡ 3 ∷ 5 ∷ [] }
    ensures calls { (after_failed_call two_kept (codes "b")).calls ≡ 2 }
    ensures called { (after_call two_kept).calls ≡ 2 }
    ensures gave { (after_giving two_kept 2).given ∷ (after_giving two_kept 2).calls ∷ []
        ≡ 12 ∷ 2 ∷ [] }
    ensures seen { (seen_folder two_kept).faults (codes "b") ≡ 4 }
    ensures unknown { (seen_folder two_kept).faults (codes "c") ≡ 0 }
    ensures by_piece { given_count two_kept (5 ∷ 6 ∷ 7 ∷ []) 0 (0 ∷ 0 ∷ 0 ∷ []) ≡ 2 }
    ensures by_end { given_count two_kept (5 ∷ 6 ∷ 7 ∷ []) 2 (0 ∷ 0 ∷ 0 ∷ []) ≡ 1 }
    ensures by_buffer { given_count two_kept (5 ∷ 6 ∷ 7 ∷ []) 0 (0 ∷ []) ≡ 1 }
    ensures fresh { bytes_of (fresh_folder 2) (codes "a") ≡ None }
    ensures listing { (folder_listing (folder_listing two_kept 9) 4).failing ≡ 9 ∷ 4 ∷ [] }
{}

/// A sink in memory: what it takes, when it fails, and what a fault and a finishing leave.
pub fn sinks_in_memory()
    ensures by_piece { taken_count (fresh_sink 2 5) (1 ∷ 2 ∷ 3 ∷ []) ≡ 2 }
    ensures by_room { taken_count (fresh_sink 9 2) (1 ∷ 2 ∷ 3 ∷ []) ≡ 2 }
    ensures by_bytes { taken_count (fresh_sink 9 5) (1 ∷ []) ≡ 1 }
    ensures fails { IsToFail (three_taken false) [] }
    ensures full { IsToFail (fresh_sink 2 0) (1 ∷ []) }
    ensures nothing_to_take { IsToFail (fresh_sink 2 0) [] → ⊥ }
    ensures room_left { IsToFail (fresh_sink 2 1) (1 ∷ []) → ⊥ }
    ensures taking { seen_sink (after_taking (three_taken false) (1 ∷ []))
        ≡ telling_sink (5 ∷ 6 ∷ 7 ∷ 1 ∷ []) false 3 }
    ensures failing { seen_sink (after_failing (three_taken false))
        ≡ telling_sink (5 ∷ 6 ∷ 7 ∷ []) true 4 }
    ensures calls { (after_failing (three_taken false)).calls ≡ 2 }
    ensures finishing { seen_sink (after_finishing (after_taking (three_taken false) (1 ∷ [])))
        ≡ telling_sink (5 ∷ 6 ∷ 7 ∷ 1 ∷ []) true 3 }
    ensures not_finishing { seen_sink (after_finishing (after_taking (three_taken true) (1 ∷ [])))
        ≡ telling_sink (5 ∷ 6 ∷ 7 ∷ 1 ∷ []) false 4 }
    ensures asked { sink_failing_finish (three_taken false) ≡ three_taken true }
    ensures listing { (sink_listing (three_taken false) 9).failing ≡ 2 ∷ 9 ∷ [] }
{}
