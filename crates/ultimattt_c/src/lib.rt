// The static library as C links it: the exports of the library ultimattt, under their names in C.

#![tactic(auto)]

pub mod book_exports;
pub mod exports;
pub mod games_exports;
pub mod players_exports;
