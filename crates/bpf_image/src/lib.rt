//! Images of programs, and the rules on the form of their code.
#![tactic(auto)]

pub mod form;
pub mod image;
pub mod read;

pub use form::{FormFault, FormRule, form_fault};
pub use image::{Image, ImageFault, ImageKind};
pub use read::{raw_image, read_image, read_program};
