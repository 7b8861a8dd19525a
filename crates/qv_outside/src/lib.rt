// The outside: files, sinks and hosts as traits, and implementations in memory.
#![tactic(auto)]

mod call_log;
pub mod drop_sink;
mod entries;
pub mod files;
pub mod fixed_host;
pub mod host;
pub mod mem_files;
pub mod mem_sink;
mod schedule;
mod script;
pub mod script_host;
pub mod signature;
mod sigs;
pub mod sink;
pub mod steady_files;
#[cfg(test)]
mod tests;
