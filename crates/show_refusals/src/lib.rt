// Why Resolve refuses a text, in words, and what a text loses that it accepts. What an operand stands for, which pair is forced twice, which limit is
// met and which effects a statement brings are asked of Resolve itself, about parts of the text (`probes`), since a second resolver could disagree
// with it.
// What in a statement is to blame for 13 to 18: its symbols and operands (`lets`, `symbol_words`, `operand_places`), its pairs and effects
// (`covariate`, `pair_tables`, `form_tables`), and the words about them (`names`, `symbols`, `kinds`).
#![tactic(auto)]

pub mod covariate;
pub mod culprits;
pub mod effects;
pub mod form_tables;
pub mod ground_messages;
pub mod kinds;
pub mod lets;
pub mod loss_messages;
pub mod losses;
pub mod names;
pub mod operand_places;
pub mod pair_forms;
pub mod pair_messages;
pub mod pair_probes;
pub mod pair_tables;
pub mod probes;
pub mod space_sizes;
pub mod symbol_words;
pub mod symbols;
pub mod warnings;
