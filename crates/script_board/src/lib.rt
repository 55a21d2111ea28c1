// A board that plays an event script: a line for each event, and a line for each answer.
#![tactic(auto)]

mod answers;
mod bench;
mod events;
mod looking;
mod player;
mod script;
mod setting;
mod stores;

pub use player::play;
