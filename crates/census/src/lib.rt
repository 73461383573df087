//! The plain layer: every outward call on numbers and slices alone, for Rust or C to link. An
//! answer is taken apart into the number of its refusal, 0 where it is accepted, and what stands
//! for it where it is refused (docs/SCOPE.md, "Refusals"); nothing else is done here.
// (C): answers cross as numbers, or as structs of a number beside a value; a mode crosses as three
// flags, each slice and size is a parameter of its own (15 of them for the fused sums), and each
// call has an export of its own: enums, structs of slices, methods and generic functions do not
// cross `extern "C"`.
#![tactic(auto)]

pub mod apportion;
pub mod best;
pub mod draw;
pub mod placed;
pub mod ranks;
pub mod subsets;
pub mod tables;
