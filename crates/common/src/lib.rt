// What the other crates' definitions and proofs share: the two facts that are shown of every public
// function (specs/Promise.antt), and laws on lists and numbers (specs/Laws). No code of its own.

#![tactic(auto)]
