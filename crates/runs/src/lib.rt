#![tactic(auto)]
// Runs of lists of calls. This crate has definitions and laws only: see specs/Runs.antt.
