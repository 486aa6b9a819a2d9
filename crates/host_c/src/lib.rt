// The functions of host under their C names, for studios' programs to link: each calls the function of the same name, and has its clauses.
#![tactic(auto)]

mod admitting;
mod cataloguing;
mod items;
mod lists;
mod making;
mod rescuing;
mod reviewing;
mod standings;
mod states;
mod tables;
mod taking;
