// A recorded sender session (document 02, No. 3): the file read and checked, one event's step, and
// the text of a line.

#![tactic(auto)]

mod answer;
mod check;
pub mod event;
mod fill;
pub mod line;
mod number;
pub mod replay;
mod settings;
mod start;
mod step;
