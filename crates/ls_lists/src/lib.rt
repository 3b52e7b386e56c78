//! Lemmas on lists, options and truth values that name nothing of the project. There is no
//! function here: the proofs of the crates above cite the words of `specs/` and what `proofs/`
//! proves of them.
#![tactic(auto)]
