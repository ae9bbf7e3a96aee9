//! Programs before they are accepted.

use bpf_helpers::Sigs;
use bpf_image::Image;

/// A program that may be accepted: its image, and the Sigs of the helpers that it may call.
#[derive(Drop)]
pub struct Candidate {
    pub image: Image,
    pub sigs: Sigs,
}
