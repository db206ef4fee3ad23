//! One value that threads take turns with: the rule of a queue of one place, in which the value is or from which it is taken, and of
//! the passes by which threads know it. There is no code here. Whoever shares a value names the rule and its steps at the value's
//! queue (`specs/Turns.antt`, `proofs/Steps.antt`).
#![tactic(auto)]
