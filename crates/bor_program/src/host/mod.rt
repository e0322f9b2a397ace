//! The machine that the program runs on, as far as the program asks it, beside streams.

mod answering;
mod named_files;
mod open_register;
mod opened;
mod ports;
mod registers;
mod stage;

pub use answering::Answering;
pub use named_files::NamedFiles;
pub use open_register::OpenRegister;
pub use opened::{Opened, Origin};
pub use ports::Ports;
pub use registers::Registers;
pub use stage::Stage;
