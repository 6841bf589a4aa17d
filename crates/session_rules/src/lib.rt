//! The rules of a session and of a whole script, as definitions: see specs/. There is no code here; the crates
//! above cite what each of their calls is to do.
#![tactic(auto)]
