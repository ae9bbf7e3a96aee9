//! The limits of keys, contents and siblings.

/// The most siblings after a put.
pub const MAX_SIBLINGS: usize = 64;

/// The most bytes of a bucket. It has one at least.
pub const MAX_BUCKET_BYTES: usize = 64;

/// The most bytes of a key's name in its bucket. It has one at least.
pub const MAX_KEY_BYTES: usize = 255;

/// The most bytes of a media type. It has one at least.
pub const MAX_MEDIA_BYTES: usize = 127;

/// The most bytes of a value, which may have none.
pub const MAX_VALUE_BYTES: usize = 65_536;
