// Replays recorded sessions of the tracker (oracle/README.md): every answer, every number after
// each event and the whole lost list are compared.

#![tactic(auto)]

pub mod answer;
pub mod event;
pub mod session;
