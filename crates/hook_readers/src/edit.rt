//! One change.

use bpf_image::ImageKind;
use bpf_verifier::Verified;
use key_state::Bytes;
use std::sync::Arc;

/// A change that is kept until each copy of the registry has taken it in.
#[derive(Drop)]
pub enum Edit {
    Install {
        name: Bytes,
        program: Arc<Verified>,
    },
    Remove {
        name: Bytes,
    },
    Bind {
        bucket: Bytes,
        bindings: Vec<(ImageKind, Option<Bytes>)>,
    },
}
