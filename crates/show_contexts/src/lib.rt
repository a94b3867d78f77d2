// Context files: their rows and names (`rows`, `context_names`), a file read (`context_file`, `entries`), what is wrong with one
// (`context_messages`, `wrong`), and what of one comes to nothing (`losses`).
#![tactic(auto)]

pub mod context_file;
pub mod context_messages;
pub mod context_names;
pub mod entries;
pub mod losses;
pub mod rows;
pub mod wrong;
