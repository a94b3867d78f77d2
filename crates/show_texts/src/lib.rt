// Why a text is refused, 1 to 11 and, by the profile, 22 to 24: what stands at the place (`scenes`, `keywords`), what would have been accepted
// (`accepted`), and the words (`arguments`, `expected`, `found`, `text_messages`, `profile_messages`).
#![tactic(auto)]

pub mod accepted;
pub mod accepted_tables;
pub mod arguments;
pub mod expected;
pub mod found;
pub mod keywords;
pub mod profile_messages;
pub mod scenes;
pub mod text_messages;
