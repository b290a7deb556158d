//! Tests of the board, of the plain definition and of the commands, by public calls. It has no code but for tests.
#![tactic(auto)]

#[cfg(test)]
mod board;
#[cfg(test)]
mod cli;
#[cfg(test)]
mod meeting;
#[cfg(test)]
mod plain;
