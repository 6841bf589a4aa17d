//! Scripts computed from the rules of sessions: their transcripts to the last byte, and that these keep the laws of
//! lifetimes. See proofs/. There is no code here.
#![tactic(auto)]
