// The controller's numbers: settings, window, round trip, timeout.

#![tactic(auto)]

pub mod numbers;
pub mod settings;
mod trip;
mod window;
