// The tables, in the notation that the README gives.
pub mod answers;
pub mod cards;
pub mod expressions;
pub mod files;
pub mod forms;
pub mod kinds;
pub mod names;
pub mod operations;
pub mod printed;
pub mod statements;
pub mod tokens;
pub mod typing;
pub mod units;
