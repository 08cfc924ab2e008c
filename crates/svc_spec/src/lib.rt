//! The definitions that a loan's books are compared with, and what follows from them.
#![tactic(auto)]
