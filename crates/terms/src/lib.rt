// Document 01's words as code: its limits, sizes and arenas (sections 1 and 2), and what is answered (sections 3 and 4).
#![tactic(auto)]

mod answers;
mod arenas;
mod small;

pub use answers::{Block, Figures, Refusal};
pub use arenas::{Arena, M_MOST, PAGE_BYTES, run_bytes};
pub use small::{SIZE_COUNT, SMALL_MOST, Size};
