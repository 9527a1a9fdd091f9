ghost use Rattle.std.specs.Prelude.{◌+◌, ◌≤◌, ◌^◌, length};

mod lines;

// Stands on the bytes of an image, which are lent, and hands out its lines one after another.
#[derive(Drop)]
pub struct Reader<'a> {
    // from the next line on
    rest: &'a [u8],
    // the number of the next line
    next: u64,
    ghost counted: { next + length rest.now ≤ 2 ^ 63 },
}
