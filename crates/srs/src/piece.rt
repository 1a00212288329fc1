// The seven kinds of piece, with their codes and letters.
ghost use Rattle.std.specs.Prelude.{◌≡◌};
ghost use Rattle.srs.specs.Piece.{piece_code, piece_letter, piece_with_code, piece_with_letter};

/// A kind of piece. Codes run from 1 to 7 in this order, as in fumen.
#[derive(Clone, Copy, Debug, Default, PartialEq, Eq, Hash)]
pub enum Piece {
    #[default]
    I,
    L,
    O,
    Z,
    T,
    J,
    S,
}

impl Piece {
    /// All seven pieces, in the order of their codes.
    pub const ALL: [Piece; 7] = [
        Piece::I,
        Piece::L,
        Piece::O,
        Piece::Z,
        Piece::T,
        Piece::J,
        Piece::S,
    ];

    /// The code, from 1 for I to 7 for S.
    pub fn code(self) -> u8
        ensures { result ≡ piece_code self }
    {
        match self {
            Piece::I => 1,
            Piece::L => 2,
            Piece::O => 3,
            Piece::Z => 4,
            Piece::T => 5,
            Piece::J => 6,
            Piece::S => 7,
        }
    }

    /// The piece with this code. `None` exactly if the code is not 1 to 7.
    pub fn from_code(code: u8) -> Option<Piece>
        ensures { result ≡ piece_with_code code }
    {
        match code {
            1 => Some(Piece::I),
            2 => Some(Piece::L),
            3 => Some(Piece::O),
            4 => Some(Piece::Z),
            5 => Some(Piece::T),
            6 => Some(Piece::J),
            7 => Some(Piece::S),
            _ => None,
        }
    }

    /// The piece's capital letter, as an ASCII byte.
    pub fn letter(self) -> u8
        ensures { result ≡ piece_letter self }
    {
        match self {
            Piece::I => b'I',
            Piece::L => b'L',
            Piece::O => b'O',
            Piece::Z => b'Z',
            Piece::T => b'T',
            Piece::J => b'J',
            Piece::S => b'S',
        }
    }

    /// The piece with this letter, capital or small. `None` exactly if the byte is no piece's letter.
    pub fn from_letter(byte: u8) -> Option<Piece>
        ensures { result ≡ piece_with_letter byte }
    {
        match byte {
            b'I' | b'i' => Some(Piece::I),
            b'L' | b'l' => Some(Piece::L),
            b'O' | b'o' => Some(Piece::O),
            b'Z' | b'z' => Some(Piece::Z),
            b'T' | b't' => Some(Piece::T),
            b'J' | b'j' => Some(Piece::J),
            b'S' | b's' => Some(Piece::S),
            _ => None,
        }
    }
}
