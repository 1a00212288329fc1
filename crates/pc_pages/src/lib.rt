// The commands on pages of fumens: `decode`, `encode` and `show`.
#![tactic(auto)]

mod decode;
mod encode;
pub mod laws;
mod show;

pub use decode::run_decode;
pub use encode::run_encode;
pub use show::run_show;
