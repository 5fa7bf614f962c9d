// Values in order of size: the accumulating call of `svd`, and then values, U and V put in the order
// of the diagonal's magnitudes. Only `ordered` is public, and what is public asks nothing of its
// caller.
// Kept: loops write by index: two lists at once, or rows by what a third says, which no one iterator lends.
// Kept: a row is written in its table from `at` on, as the definition `rows_moved` sets entries.
// Kept: no sort: f64 has no Ord, and `order` of method writes each position at its counted place, as here.
// Kept: table, U, V and the list of values are lent one by one, as the C interface hands them.
#![tactic(auto)]

mod columns;
mod diagonal;
pub mod ordered;
mod places;
