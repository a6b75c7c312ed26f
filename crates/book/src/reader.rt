ghost use Rattle.std.specs.Prelude.{◌≡◌, ◌^◌, ◌<◌, ◌≤◌, length};

mod items;
mod lines;
mod names;

/// Walks over the text of a book, of which it copies nothing.
#[derive(Clone, Copy)]
pub struct Reader<'a> {
    text: &'a [u8],
    place: usize,
    ghost within: { place ≤ length text.now },
    ghost fits: { length text.now < 2 ^ 64 },
}
