// The calls of crates calls, sheets, searches, book, games and players with the types and numbers that C has them with. The crate ultimattt_c exports them.

#![tactic(auto)]

pub mod book_exports;
pub mod exports;
pub mod games_exports;
pub mod players_exports;
