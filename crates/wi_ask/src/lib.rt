//! The commands that ask something of a network, and answer it with a text, and a certificate that is stored; or that hold a certificate
//! against what is asked.
#![tactic(auto)]

mod check;
mod check_exact;
mod decided;
mod exact;
mod question;
mod ring;
mod tolerate;
mod verify;

pub use question::ask;
pub use ring::summary_of_ring;
