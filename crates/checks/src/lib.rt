// What is looked at before any number is touched: the settings of a call, the search for readings that
// are no numbers, how many values a table has, and the first refusal that applies. What is public asks
// nothing of its caller.
#![tactic(auto)]

pub mod place;
pub mod refusal;
mod search;
pub mod settings;
pub mod sizes;
