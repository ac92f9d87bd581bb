#![tactic(auto)]
// Laws only: what the kit's library lacks and several crates cite.
