// What the calls of one of two parties promise (02 §5), and what follows from that. The crate has no code: the calls are `parties`.
#![tactic(auto)]
