// The pages of fumens: their cells and the letters of these, their actions, what one page leaves for the next, the digits
// that spell them, and the faults of pages that are to be written and of lists of pages.
#![tactic(auto)]

mod action;
mod encode_fault;
mod inside;
pub mod laws;
mod letters;
mod list_fault;
mod next;
mod page;
mod record;
mod tail;

pub use action::{Action, ActionFault, action_number, read_action};
pub use encode_fault::EncodeFault;
pub use inside::is_inside;
pub use letters::{first_shown, is_blank, letters_of, row};
pub use list_fault::{ListFault, ListKind};
pub use next::{mark, next_cells};
pub use page::{MOST_PAGES, Page};
pub use record::{CellsFault, CellsRead, read_cells, write_cells};
pub use tail::read_page;
