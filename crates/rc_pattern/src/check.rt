//! Pattern queries for the layers above: well-formedness, weight, depth, groups, properties and
//! copies. They are not part of the public interface.
//!
//! Except for `depth_within` and `is_well_formed`, each recurses as deep as the pattern is nested.
//! Ask first whether the pattern is well-formed.

mod bounds;
mod captures;
mod copies;
mod depths;
mod names;
mod weights;
mod well_formed;

pub use crate::hir::properties::known::properties_of;
pub use captures::{group_count, groups};
pub use copies::copies_of;
pub use depths::depth_within;
pub(crate) use depths::is_shallow;
pub use weights::{capped_list_weight, capped_weight};
pub use well_formed::is_well_formed;
