// The substitution of a byte (FIPS 197, 5.1.1): the printed table, its rule, and the inverse by halves, by which code works it out. Definitions
// stand in specs/, laws in proofs/. The crate has no functions.
#![tactic(auto)]
