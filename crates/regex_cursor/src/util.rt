//! Iteration over finders of your own.

pub mod iter;
