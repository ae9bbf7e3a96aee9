//! What holds of frames, whatever is done with them. Each of these functions does nothing: its contract is the law.

ghost use Rattle.std.specs.Prelude.{◌≡◌, ℕ, ◌+◌, ◌-◌, ◌<◌, ◌≤◌, ◌^◌, List, ◌++◌, length, slice_index_or, take, drop};
ghost use Rattle.peer_frames.specs.Frames.{IsCut, IsFrame, body_in, frame, length_in, longest_body};

/// What was sent is taken, whatever follows it: the frame begins the bytes, and its body is the one that was sent.
pub fn sent_is_taken()
    ensures frame { (key body rest : List ℕ) (number : ℕ) → length body ≤ longest_body → number < 2 ^ 64 - 1 → IsFrame key number (frame key number body ++ rest) }
    ensures body { (key body rest : List ℕ) (number : ℕ) → length body ≤ longest_body → body_in (frame key number body ++ rest) ≡ body }
    ensures len { (key body rest : List ℕ) (number : ℕ) → length body ≤ longest_body → 44 + length_in (frame key number body ++ rest) ≡ length (frame key number body) }
{}

/// A front of a frame that isn't all of it is cut.
pub fn front_is_cut()
    ensures { (key body : List ℕ) (number n : ℕ) → length body ≤ longest_body → n < length (frame key number body) → IsCut (take n (frame key number body)) }
{}

/// What is taken is spelled so: the frame of its body begins the bytes.
pub fn taken_is_spelled()
    ensures { (key bytes : List ℕ) (number : ℕ) → ((i : ℕ) → slice_index_or bytes i 0 < 256) → IsFrame key number bytes → bytes ≡ frame key number (body_in bytes) ++ drop (44 + length_in bytes) bytes }
{}
