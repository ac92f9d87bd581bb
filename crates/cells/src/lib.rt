#![tactic(auto)]
// Programs that read cells of the RAM. This crate has definitions, laws and a claim only: see specs/Reading.antt.
