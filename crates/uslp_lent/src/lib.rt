// The lent forms: setters over a header lent for writing, and a reader that keeps the lent frame.
#![tactic(auto)]

pub mod reader;
pub mod setters;

pub use reader::{TransferFrameReader, frame_data, frame_data_len};
pub use setters::{set_frame_len, set_vc_frame_count};
