// The exported functions: each calls the function of its name of `journal`, with the same clauses.
// include/journal.h is their manual.
#![tactic(auto)]

mod at_rest;
mod bodies_of;
mod calls;
mod desk_of;
mod find_load;
mod images;
mod longer_list;
mod own_box;
mod own_told;
mod run;
mod sizes;
mod unheard;
