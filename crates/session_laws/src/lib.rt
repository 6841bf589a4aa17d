//! That what sessions say has the laws of lifetimes: each resource released once and in order, nothing touched outside a level that ends,
//! each callback called before its memory goes.
#![tactic(auto)]
