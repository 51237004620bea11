// Request No. 7: how far the adjustment of the window rule, worked out in f64, is from the exact
// fraction. Definitions and laws (specs/) and the theorem (proofs/) only; no code of its own.

#![tactic(auto)]
