// The size of the ROM whose bytes a file holds.
ghost use Rattle.std.specs.Prelude.{◌≡◌};
ghost use Rattle.report.specs.Sizes.{size_by_length, size_for, is_named, named_size};

// By the file's length. One that is no ROM's counts as the smaller, for which it is refused.
#[tactic(auto, unfolding(crate::specs::Sizes::size_by_length, rom::specs::Bytes::pick))]
pub(crate) fn by_length(length: usize) -> u16
    ensures { result ≡ size_by_length length }
{
    if length == rom::LARGE_LENGTH {
        rom::LARGE_SIZE
    } else {
        rom::SMALL_SIZE
    }
}

// What --size says, where it is given, or else what the length does.
#[tactic(auto, unfolding(crate::specs::Sizes::size_for))]
pub fn size_for(said: Option<u16>, length: usize) -> u16
    ensures { result ≡ size_for said length }
{
    said.unwrap_or(by_length(length))
}

// Whether a verdict names it: it was given, or is not the smaller.
#[tactic(auto, unfolding(crate::proofs::Computes::is_named_computes))]
pub(crate) fn is_named(given: bool, size: u16) -> bool
    ensures { result ≡ is_named given size }
{
    given || size != rom::SMALL_SIZE
}

// The size that a verdict names.
#[tactic(auto, unfolding(crate::proofs::Computes::named_size_computes))]
pub fn named(said: Option<u16>, length: usize) -> Option<u16>
    ensures { result ≡ named_size said length }
{
    let size = size_for(said, length);
    is_named(said.is_some(), size).then_some(size)
}
