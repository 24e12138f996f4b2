//! The text of specifications, read line by line: a block of lines, one for each part. It exports the
//! reader of expressions and the printing too, and has the laws that join reading and printing.
#![tactic(auto)]

pub use blocks::Block;
pub use faults::{BlockFault, SpecFault};
pub use hk_exprs::{read_cond, read_num, read_pair, read_set};
pub use hk_print::print_spec;
pub use hk_terms::{Flaw, Names};
pub use laws::{one_specification, printed_is_read, read_is_printed};
pub use reading::read_spec;

mod adding;
mod blocks;
mod faults;
mod headers;
mod laws;
mod limits;
mod properties;
mod reading;
mod steps;
