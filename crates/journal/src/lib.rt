//! The bytes of a journal and the lines that are printed of it.
#![tactic(auto)]

mod decimal;
mod decoding;
mod encoding;
mod entry;
mod fault;
mod front;
mod headings;
mod lines;
mod padded;
mod report;
mod writing;

pub use decoding::{decode, decodes_back, one_decoding};
pub use encoding::{Encoded, encode};
pub use entry::Entry;
pub use fault::FormatFault;
pub use headings::{heading, one_heading};
pub use lines::{Line, line_of};
pub use padded::Padded;
pub use report::Report;

#[cfg(test)]
mod tests;
