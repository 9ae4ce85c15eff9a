//! Whole-number definitions and lemmas that every crate above cites: the circle of right ascension
//! and the nights. It has no code, and names no type of the product.
#![tactic(auto)]
