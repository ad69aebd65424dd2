// 01's starred bench cases are one table, specs/Table, over the definitions that the promises use, and one theorem, proofs/Table; so are
// the other worked cases.
#![tactic(auto)]
