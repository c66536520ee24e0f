#![tactic(auto)]
// The order tape: commands of fixed widths, read without a copy and written one way.
mod command;
mod decode;
mod encode;
mod fault;
mod parts;
mod reader;

pub use command::Command;
pub use decode::read;
pub use encode::write;
pub use fault::{TapeFault, WriteFault};
pub use parts::{MAX_TAPE, command_part, read_at, tape_from};
pub use reader::Reader;
