// validator.rs: findings, and what is wrong with one instruction.
#![tactic(auto)]

pub mod finding;
pub mod glance;
pub mod judge;
