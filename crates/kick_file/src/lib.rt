// Tables of offsets as text: reading and printing.
#![tactic(auto)]

mod fault;
pub mod laws;
mod parser_state;
mod printing;
mod reading;
mod turned;

pub use fault::KickFault;
pub use printing::{print, push_entry, push_offsets};
pub use reading::parse;
