// How large and how small floats are, by powers of two: the crate has no code, only laws of what rounding, products, sums and roots keep, and of lengths and directions.
#![tactic(auto)]
