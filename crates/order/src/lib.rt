// The order of floats, for all of them, NaN, infinities and both zeros: the crate has no code, only laws of the kit's `lt`, `eq` and `le`, in proofs/Order.
#![tactic(auto)]
