// The tool: what the program does, over any files, streams and host.
#![tactic(auto)]

mod damaged;
mod gather;
mod list;
pub mod own;
mod play;
mod q3asm;
mod qall;
mod qcc;
mod qdis;
mod qrun;
mod report;
pub mod status;
mod store;
pub mod tool;
mod uncompiled;
mod unlinked;
