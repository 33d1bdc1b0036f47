//! The tests of the layers, from bytes to the whole program.
#![tactic(auto)]

#[cfg(test)]
mod base;
#[cfg(test)]
mod cards;
#[cfg(test)]
mod expressions;
#[cfg(test)]
mod files;
#[cfg(test)]
mod forms;
#[cfg(test)]
mod help;
#[cfg(test)]
mod kinds;
#[cfg(test)]
mod names;
#[cfg(test)]
mod operations;
#[cfg(test)]
mod printed;
#[cfg(test)]
mod statements;
#[cfg(test)]
mod table;
#[cfg(test)]
mod tables;
#[cfg(test)]
mod tokens;
#[cfg(test)]
mod top;
#[cfg(test)]
mod typing;
#[cfg(test)]
mod unit_limits;
#[cfg(test)]
mod units;
