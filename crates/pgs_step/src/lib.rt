//! The plain types of the core: names, numbers, errors and events, and what it is to emit events.
#![tactic(auto)]

mod chunk_bytes;
mod counters;
mod emitter;
mod errors;
mod event_list;
mod events;
mod ids;
mod lock_modes;
mod names;

pub use chunk_bytes::ChunkBytes;
pub use counters::{DEEPEST, Depth, MemoryCounters, SessionCounts};
pub use emitter::Emit;
pub use errors::Error;
pub use event_list::EventList;
pub use events::{Event, What};
pub use ids::{CtxId, Item, KindId, OwnerId, Phase};
pub use lock_modes::Mode;
pub use names::Name;
