//! Tests of the core and of whole runs, at concrete types.

mod both;
mod closing;
mod corners;
mod example;
mod limits;
mod long;
mod makes;
mod plain;
mod runs;
mod seeded;
mod shown;
mod steps;
mod uses;
