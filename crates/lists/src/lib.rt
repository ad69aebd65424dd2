// What holds of any list, and of tests: the crate has no code, only definitions and laws. specs/Put: what a lent buffer holds after a run of stores; specs/Search: the
// first and the last number that a test takes.
#![tactic(auto)]
