// Values with their places in a file.
ghost use Rattle.std.specs.Prelude.{◌≡◌};

// A value with the line and the column, both from 1, at which it was read.
#[derive(Clone, Copy, Debug)]
pub struct Placed<T> {
    pub value: T,
    pub line: usize,
    pub column: usize,
}

impl<T> Placed<T> {
    // Another value at the same place.
    pub fn with<U>(&self, value: U) -> Placed<U>
        ensures value { result.value ≡ value }
        ensures line { result.line ≡ self.now.line }
        ensures column { result.column ≡ self.now.column }
    {
        Placed {
            value,
            line: self.line,
            column: self.column,
        }
    }
}
