// The entry points as C functions, for studios' programs to link. Each is thin over the proved call of the same name, and its
// answer is a struct of numbers, by the crate plain. A slice is a pointer, then a length.
#![tactic(auto)]

pub mod admitting;
pub mod cataloguing;
pub mod items;
pub mod lists;
pub mod making;
pub mod rescuing;
pub mod reviewing;
pub mod standings;
pub mod states;
pub mod tables;
pub mod taking;
