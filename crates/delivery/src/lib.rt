// Demand 3: what arrives is what was sent, over any run of two ends and a channel. Definitions and
// theorems only (specs/); no code of its own.

#![tactic(auto)]
