// The adapters over the machine: its files, its streams and its clock.
#![tactic(auto)]

pub mod disk_files;
pub mod real_clock_host;
pub mod std_sink;
mod whole;
