// Text put together in a buffer before any of it goes out (`pages`), as a person can see it (`visible`, `strange`), and where a fault stands: its
// line, its column, the mark under it (`places`).
#![tactic(auto)]

pub mod pages;
pub mod places;
pub mod strange;
pub mod visible;
