// The singular value split of a survey's table: the calls that an app makes, and the Rust's
// functions beneath them, module by module under their own names. Settings and refusals are those
// of `checks`. Only `interface`, `report` and `tally` are public, and what is public asks nothing of
// its caller.
#![tactic(auto)]

mod bidiagonalization;
mod bulge_chasing;
mod givens;
mod householder;
pub mod interface;
mod primitives;
pub mod report;
mod shape;
pub mod tally;
mod window;
mod work;
