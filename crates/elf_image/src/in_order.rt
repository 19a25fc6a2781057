ghost use Rattle.std.specs.Prelude.{◌≡◌, nat_le, OnOk};
ghost use Rattle.std.specs.List.{position};
ghost use Rattle.elf_spec.specs.Image.{placed};

use elf_spec::Segment;
use std::alloc::AllocError;

/// Puts a segment in its place among others in rising order of address.
pub(crate) fn put(segments: &mut Vec<Segment>, segment: Segment) -> Result<(), AllocError>
    ensures { OnOk result (segments.new.items ≡ placed segment segments.old.items) }
{
    let place = match first_from(segments, &segment) {
        Some(place) => place,
        None => segments.len(),
    };
    segments.insert(place, segment)?;
    Ok(())
}

/// The first segment that begins at or above another's address.
fn first_from(segments: &[Segment], segment: &Segment) -> Option<usize>
    ensures { result ≡ position (λ next. nat_le segment.now.at next.at) segments.now }
{
    segments.iter().position(|next| segment.at <= next.at)
}
