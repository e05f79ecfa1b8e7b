//! A box in its parts: its pointer and its allocator as plain fields, which a struct of another shape may take over. It
//! knows nothing of who holds the parts.
#![tactic(auto)]

mod loose_box;

pub use loose_box::LooseBox;
