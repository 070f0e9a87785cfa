// Isotonic fits: blocks of pieces, and the max-min rule that defines them.
#![tactic(auto)]

mod blocks;

pub use blocks::Block;
