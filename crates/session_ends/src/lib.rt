//! What a session of a backend gives back: items, plans, portals, and the levels of its transaction as they end, with their portals. The context
//! of a discarded plan goes with the last reference to it, in the middle of a release. The portals of a session are made here, too, each
//! with its contexts and its owner, and change as their queries run.
#![tactic(auto)]

mod changing;
mod ends;
mod items;
mod making;
mod parts;
mod place;
mod portal_parts;
mod portals;

pub use changing::{
    begin_fetch, fail_portal, place_of, portal_at, portal_named, portal_ready, step_at,
};
pub use ends::{abort, clean_up, close, commit_top, roll_back, subcommit};
pub use items::{drop_plan, release_item};
pub use making::{make_portal, make_portal_context, make_portal_owner, make_row_context};
pub use portals::end_portal;
