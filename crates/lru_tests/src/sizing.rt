//! Tests of sizing: the reuse weights, the curve and the replay of traces, compared with plain
//! models.

mod corners;
mod five_uses;
mod model;
mod sampled;
mod seeded;
