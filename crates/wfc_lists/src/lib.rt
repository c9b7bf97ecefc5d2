//! Definitions and lemmas on lists, options, positions, rising lists, counts, ranges and tables that std lacks. There is
//! no code: the definitions stand in `specs/`, and the crates above cite the lemmas of `proofs/` by the file of their
//! topic.
#![tactic(auto)]
