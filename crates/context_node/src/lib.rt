//! One memory context of a session: its allocator, its chunks with their names, and the hooks that wait on it.
#![tactic(auto)]

mod all_chunks;
mod chunk_id;
mod chunk_names;
mod chunks;
mod ending;
mod entry;
mod making;
mod node;
mod running;
mod zeros;

pub use chunk_id::ChunkId;
pub use chunk_names::{enter_chunk, room_for_chunk};
pub use entry::Entry;
pub use making::{NewContext, enter_context, give_back, own_name, room_for_name};
pub use node::{Node, told};
pub use running::HooksRan;
