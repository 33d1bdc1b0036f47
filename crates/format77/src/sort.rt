// What begins with a character.
ghost use Rattle.std.specs.Prelude.{◌≡◌};
ghost use Rattle.format77.specs.Reading.{sort_of};
ghost use Rattle.format77.specs.Parts.{sort_view};

/// What begins with a character of a format, behind a number or a sign (X3.9 section 13.2). E, F, D and G are one sort.
#[derive(Clone, Copy, Debug)]
pub enum Sort {
    I,
    L,
    A,
    X,
    H,
    P,
    T,
    S,
    B,
    E,
    Opening,
    Closing,
    Comma,
    Slash,
    Colon,
    Sign,
    Other,
}

impl Sort {
    /// The sort of a character.
    pub fn of(byte: u8) -> Sort
        ensures { sort_view result ≡ sort_of byte }
    {
        match byte {
            b'I' => Sort::I,
            b'L' => Sort::L,
            b'A' => Sort::A,
            b'X' => Sort::X,
            b'H' => Sort::H,
            b'P' => Sort::P,
            b'T' => Sort::T,
            b'S' => Sort::S,
            b'B' => Sort::B,
            b'E' | b'F' | b'D' | b'G' => Sort::E,
            b'(' => Sort::Opening,
            b')' => Sort::Closing,
            b',' => Sort::Comma,
            b'/' => Sort::Slash,
            b':' => Sort::Colon,
            b'+' | b'-' => Sort::Sign,
            _ => Sort::Other,
        }
    }
}
