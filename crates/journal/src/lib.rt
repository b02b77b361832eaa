// What `journal_c` exports, and nothing else: numbers and slices in, the paper's numbers out. Each
// is proved to be the entry of `site`, `own`, `until`, `rested`, `writer`, `reader`, `longer`,
// `agreed`, `find`, `bodies` or `desk` that it calls. include/journal.h is their manual.
#![tactic(auto)]

mod answered;
mod at_rest;
mod bodies_of;
mod calls;
mod desk_of;
mod find_load;
mod images;
mod longer_list;
mod own_box;
mod own_told;
mod run;
mod sizes;
mod unheard;

pub use at_rest::journal_rest;
pub use bodies_of::{journal_body, journal_named};
pub use calls::{
    journal_agree, journal_collect, journal_deliver, journal_elect, journal_finish, journal_fresh,
    journal_heard, journal_holds, journal_lose, journal_offer, journal_propose, journal_ready,
    journal_recover, journal_repeat, journal_return, journal_stop, journal_timeout, journal_trim,
};
pub use desk_of::{
    journal_desk_left, journal_desk_pair, journal_desk_right, journal_desk_withdraw_left,
    journal_desk_withdraw_right,
};
pub use find_load::journal_find;
pub use images::{journal_image_length, journal_read, journal_write};
pub use longer_list::{journal_agreed, journal_longer};
pub use own_box::{
    journal_own_agree, journal_own_collect, journal_own_finish, journal_own_heard,
    journal_own_mail, journal_own_offer, journal_own_propose, journal_own_ready,
    journal_own_recover, journal_own_trim,
};
pub use own_told::{journal_own_elected, journal_own_fresh, journal_own_holds};
pub use run::journal_run;
pub use sizes::{journal_links_words, journal_site_words};
pub use unheard::{journal_own_unheard, journal_unheard};
