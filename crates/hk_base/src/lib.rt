//! What every other crate stands on: lists that contracts see as lists, the traits of the outside
//! world and the definitions of lists and value sets that several crates cite.
#![tactic(auto)]

pub use calls::CallKind;
pub use faults::fault;
pub use gate::Gate;
pub use host::{Failed, Host, Slot};
pub use limits::{LIM, limit_is_as_defined};
pub use list::{Bytes, List};
pub use making::{list_of, pair};
pub use memory::MemoryHost;
pub use writing::write_all;

mod calls;
mod faults;
mod gate;
mod host;
mod inputs;
mod limits;
mod list;
mod making;
mod memory;
mod outputs;
mod writing;
