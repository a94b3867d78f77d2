// One request line of `replay` and its answer: what is asked about a text alone, and what is asked of Resolve.
#![tactic(auto)]

pub mod context_lines;
pub mod requests;
pub mod statements;
pub mod text_lines;
