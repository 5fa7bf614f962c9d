// The two factors U and V of the split: the fill with the identity and the view of one row. What is
// public asks nothing of its caller.
#![tactic(auto)]

pub mod identity;
pub mod view;

// The most rows and the most columns of a table: `most_size` of method.
// Kept: it stands here and in checks, since method, the only crate below both, holds specs alone.
const MOST_SIZE: usize = 48;
