// Texts as bytes: numerals and bit patterns in digits, fields and lines, read from slices and
// written into slices of any length.
#![tactic(auto)]

pub mod fields;
pub mod numerals;
pub mod page;
pub mod writing;
