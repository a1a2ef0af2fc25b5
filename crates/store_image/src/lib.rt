//! The image of the modelled S3 service: everything that it holds, as one list of bytes; and
//! reading such a list.
//!
//! # What is proved
//!
//! - `encode`: appends exactly the image of the store, or nothing.
//! - `decode`: returns a store exactly if the bytes are the image of one that can have an image.
//!   Otherwise it returns the first fault in reading order with its number and place. No two such
//!   contents have the same image.
//!
//! Left open: how large an image gets.
#![tactic(auto)]

mod fault;
mod fields;
mod reading;
mod writing;

pub use fault::ImageFault;
pub use reading::decode;
pub use writing::encode;
