//! Tests of the journal and of its twin, at concrete types.

mod answer;
mod caller;
mod example;
mod long;
mod owner;
mod records;
mod seeded;
mod threads;
mod told;
