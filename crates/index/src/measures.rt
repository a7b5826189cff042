// What a row is judged by, in a file of its own: the definitions that name the struct are no part of what its ghost field needs.
ghost use Rattle.std.specs.Prelude.{◌<◌};

use numbers::sections::CODES;

// The width of offsets, 4 or 8, and the lengths of the object's sections by their code.
#[derive(Clone, Copy)]
pub struct Measures {
    pub width: usize,
    pub lengths: [usize; CODES],
    ghost some: { 0 < width },
}
