//! Regex front: `Regex`, its builder, its cache, its searches and its iterators.
#![tactic(auto)]

pub mod ahead;
pub mod builder;
pub mod cache;
mod counts;
mod debug;
pub mod finder;
pub mod iterators;
pub mod laws;
pub mod lists;
pub mod partial;
pub mod reach;
pub mod regex;
mod seeker;
pub mod which;
