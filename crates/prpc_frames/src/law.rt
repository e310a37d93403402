ghost use Rattle.std.specs.Prelude.{◌≡◌, ◌<◌, ◌^◌, ℕ, List, ◌++◌, length, All};
ghost use Rattle.prpc_frames.specs.Stream.Reading.{Stream, later, before, frames, joined, begun, fed, fed_all, all_of};
ghost use Rattle.prpc_frames.specs.Stream.Spelling.{all_bytes, IsFitting, IsTyped};
ghost use Rattle.prpc_frames.specs.declared.frame.Frame.{Frame};

use rpc_meta::reads_its_spelling;

/// Laws of streams: how the bytes are cut doesn't matter. So a stream that was fed pieces is the stream of their bytes,
/// and a frame that was handed out before a piece came is the one that would be handed out after it.
pub fn any_pieces()
    ensures pieces { (pieces : List (List ℕ)) → fed_all begun pieces ≡ frames 0 (all_of pieces) }
    ensures cut { (at : ℕ) (a b : List ℕ) → fed (frames at a) b ≡ frames at (a ++ b) }
    ensures handed_out { (f : Frame) (s : Stream) (piece : List ℕ) → fed (before f s) piece ≡ before f (fed s piece) }
{}

/// A law of streams: the frames of a list of spellings, whatever follows, begin with that list. Each frame fits, and its
/// numbers are of their types.
pub fn begins_with_spelled()
    ensures { (at : ℕ) (fs : List Frame) (more : List ℕ) → at < 2 ^ 64 → All (λ f. IsFitting f × IsTyped f.meta) fs
        → frames at (all_bytes fs ++ more) ≡ joined fs (frames (later at (length (all_bytes fs))) more) }
{
    reads_its_spelling();
}
