// By form on bytes: at each place the next thing is found whole and by form, or there is none.
#![tactic(auto)]

pub mod mail;
