#![tactic(auto)]
// Lists of the device's calls. This crate has definitions and claims only: see specs/OnePage.antt.
