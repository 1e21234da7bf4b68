// The segments of an image in rising order.
ghost use Rattle.job_model.specs.Images.{IsSegment};
ghost use Rattle.lwk_boot.specs.Order.{IsNext, NoneLeft};
ghost use Rattle.std.specs.Prelude.{All, MatchOption};

use job_model::Segment;

/// The place of the segment that begins at the page or above, lowest of all that do.
pub fn next_segment(segments: &[Segment], page: u64) -> Option<usize>
    requires { All IsSegment segments.now }
    ensures { MatchOption result (NoneLeft segments.now page) (λ k. IsNext segments.now page k) }
{
    let mut least = u64::MAX;
    let mut next = None;
    for (k, s) in segments.iter().enumerate() {
        let first = s.addr / 4096;
        if first >= page && first < least {
            least = first;
            next = Some(k);
        }
    }
    next
}
