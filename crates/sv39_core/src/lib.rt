//! Sv39: page-table entries, and the walk from a virtual address to a frame
//! (RISC-V Privileged ISA, "Sv39: Page-Based 39-bit Virtual-Memory System").
//!
//! The walk, the image that a tree of tables stands for and the frames that the tree is made of are
//! defined by the same look-ups of entries, in this crate's `specs/`.
#![tactic(auto)]

mod entry;
mod index;
mod walking;

pub use entry::{Entry, Pte, Reached};
pub use index::{
    TABLE_ENTRIES, UPPER_TABLE_PAGES, lower_index, lower_table_end, lower_table_start, root_index,
    upper_index, upper_table_end,
};
pub use walking::{
    entry_permits, reach, read_entry, read_lower_table, read_page_entry, read_table,
    read_upper_table, split, walk,
};
