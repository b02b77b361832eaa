// The site of boxes and links in two slices of words that the caller lends.
#![tactic(auto)]

mod boxes;
mod form;
mod general;
mod links;
mod places;

pub use boxes::{act_turn, elect_rows, fresh_rows, mail_turn, play};
pub use form::{is_by_form, is_general};
pub use general::{EPOCH, GENERAL, J, L, N, PRESENT, has, setting_of};
pub use links::{clear_links, count, double, has_room, head_start, pop, send};
pub use places::{has_words, link_count, link_of, link_start, link_width, row_of, row_start};
