//! Plain lemmas on tests, orders, lists and weights. The crate has no code.
#![tactic(auto)]
