//! The tree over the rows: what their words spell, its rule, and its single steps.
#![tactic(auto)]

mod closing;
mod comparing;
mod cursor;
mod exchange;
mod handed;
mod handing;
mod join_state;
mod joins;
mod layout;
mod link;
mod marking;
mod own_ranges;
mod passing;
mod plays;
mod range_state;
mod ranges;
mod rule;
mod steps;
mod tallying;
mod unlinking;
mod view;

pub use closing::close_words;
pub use comparing::{compare_tops, top_of};
pub use cursor::{Cursor, Spot, walk, walk_from};
pub use exchange::{divide_base, replace_base};
pub use handed::Front;
pub use handing::{front, learn};
pub use join_state::JoinState;
pub use joins::{abort_join, begin_join, leave_join, load_join, secure_join};
pub use layout::{
    BASE, BASE_FORM, BELOW_KEY, BORDER, BORDER_FORM, CODE, COUNT_LIMIT, FORM, ITEMS, JOIN, KEY,
    MARKED_BY_JOIN, MARKED_BY_RANGE, OBJECT, OBJECT_FORM, PREFIX, PREFIX_LENGTH, ROOT, ROUTE,
    TO_KEY, TO_NO_END,
};
pub use link::Link;
pub use marking::{mark_first, mark_for_join, mark_next};
pub use own_ranges::{abort_own, decide_own, leave_range, load_own_status, open_range};
pub use passing::pass_on;
pub use plays::{Finishing, Intent, Marking, Owning, Plan, Unlinks};
pub use range_state::RangeState;
pub use ranges::{decide_for, is_active, load_status};
pub use rule::{TreePass, TreeRule, TreeSpace};
pub use steps::{load_link, load_word, replace_link};
pub use tallying::adapted;
pub use unlinking::unlink_route;
pub use view::Knowledge;
