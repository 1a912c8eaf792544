//! Examples of README.md and docs/EXAMPLES.md, each with a test.

mod blocks;
mod changed;
mod cursor;
mod first;
mod pages;
mod plans;
