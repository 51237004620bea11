// The marked cases of document 01, gathered from the crates that define what they speak of: one
// list under one statement, in specs/Marked.antt. No code of its own.

#![tactic(auto)]
