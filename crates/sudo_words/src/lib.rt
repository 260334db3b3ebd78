//! Words of sudoers texts: names, paths, arguments, commands and moments; and lists in order.
#![tactic(auto)]

mod alias;
mod arg;
mod arg_text;
mod civil;
mod cmnd;
mod cmnd_text;
mod day;
mod decimal;
mod fault;
mod items;
mod keyword;
mod lawful;
pub mod laws;
mod moment;
mod moment_laws;
mod name;
mod order;
mod parts;
mod path;
mod word;

pub use alias::{AliasForm, AliasName};
pub use arg::{Arg, ArgForm};
pub use arg_text::{is_escaped, read_arg};
pub use cmnd::{ArgRule, Cmnd};
pub use cmnd_text::{command_of, print_cmnd, read_cmnd};
pub use day::Day;
pub use decimal::decimal_of;
pub use fault::{CmndFault, NoMemory, WordFault};
pub use items::Items;
pub use keyword::{is_keyword, is_sudoedit};
pub use lawful::{MOST_ARGS, cmnd_len, is_lawful};
pub use moment::Moment;
pub use name::{HostForm, HostName, Label, LabelForm, Name, UserForm};
pub use order::{in_order, is_among};
pub use path::{DirForm, DirPath, FileForm, FilePath};
pub use word::{Form, Word};
