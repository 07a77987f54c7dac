//! From the object of a unit to the image of its program in memory, and from the image to the end of its run.
#![tactic(auto)]

mod extents;
mod image_error;
mod memory_image;
mod parts;
mod run;
mod unit_image;

pub use image_error::ImageError;
pub use run::{Ended, execute};
pub use unit_image::image;
