// The machine of Quake III game modules (QVM): the instructions of the Quake III Arena 1.32
// interpreter, where every access is kept within the block and every fault is a named stop.
#![tactic(auto)]

mod accesses;
mod arithmetic;
mod branches;
mod entry;
mod exchange;
mod frames;
mod fresh;
mod halt;
pub mod module;
mod running;
mod stack;
mod step;
pub mod stop;
#[cfg(test)]
mod tests;
#[cfg(test)]
mod trap_tests;
mod traps;
