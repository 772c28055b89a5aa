// What the program's commands stand on: how a command stops, files, frames explained and written again, the answers of a
// script's calls, and memory that is lent to the library.
#![tactic(auto)]

mod answering;
mod checking;
mod files;
mod hexadecimal;
mod lending;
mod reading;
mod rewriting;
mod script;
mod stop;

pub use answering::{print_refused, print_unmade, print_written, write_path};
pub use checking::check;
pub use files::{load, load_text, store};
pub use lending::{bytes, cells};
pub use reading::{accept, refuse};
pub use rewriting::rewrite_file;
pub use script::{Place, break_off};
pub use stop::{Stop, complain, exit_code};
