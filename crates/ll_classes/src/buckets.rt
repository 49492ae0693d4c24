//! In which bucket a text stands.

ghost use Rattle.std.specs.Prelude.{◌≡◌};
ghost use Rattle.ll_classes.specs.Buckets.{bucket_of};

/// The number of the bucket that a text stands in.
#[tactic(auto, unfolding(crate::specs::Buckets::bucket_of))]
pub fn bucket_of(text: &[u8]) -> usize
    ensures { result ≡ bucket_of text.now }
{
    let len = text.len();
    if len == 0 {
        return 0;
    }
    let first = text[0] as usize;
    let middle = text[len / 2] as usize;
    let last = text[len - 1] as usize;
    (len + 12 * first + 150 * middle + 129 * last) % 256
}
