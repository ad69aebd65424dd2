// Theorems about binary STL (02 §4): that every mesh which build hands out is written, and that what is written is read back. The crate has no code.
#![tactic(auto)]
