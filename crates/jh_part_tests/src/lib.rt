//! Tests of the crates below the journal, by their public calls: a crate with tests is proved twice. It has no code of its
//! own, and nothing stands on it, so it is proved beside the crates above.
#![tactic(auto)]

#[cfg(test)]
mod cellcfg;
#[cfg(test)]
mod comm;
#[cfg(test)]
mod desc;
#[cfg(test)]
mod edit;
#[cfg(test)]
mod frames;
#[cfg(test)]
mod shape;
#[cfg(test)]
mod syscfg;
#[cfg(test)]
mod walk;
