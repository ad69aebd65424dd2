// The job of a shared job and one party's segment records (02 §5), and that it passes the checks and says what the two say. The crate has no code.
#![tactic(auto)]
