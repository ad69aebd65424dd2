// Theorems about the command `ribbon`: that the bytes which it writes are write_stl's of the scaled mesh, and that its large room serves every job. The crate has no code.
#![tactic(auto)]
