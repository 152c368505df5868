// The lines of a file.
ghost use Rattle.std.specs.Prelude.{◌+◌, ◌<◌, ◌^◌, length};

pub mod split;

// One line, without its line feed, and its number, from 1.
#[derive(Clone, Copy)]
pub struct Line<'a> {
    pub bytes: &'a [u8],
    pub number: usize,
}

// The lines of a file that are still to come, after `before` others.
#[derive(Clone, Copy)]
pub struct Lines<'a> {
    rest: &'a [u8],
    before: usize,
    ghost counted: { before + length rest.now < 2 ^ 64 },
}
