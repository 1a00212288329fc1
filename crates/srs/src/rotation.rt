// The four rotations of a piece, their letters and their neighbours.
ghost use Rattle.std.specs.Prelude.{◌≡◌};
ghost use Rattle.srs.specs.Rotation.{rotation_index, rotation_letter, rotation_with_letter, clockwise_of, anticlockwise_of};

/// A rotation of a piece: as it spawns, or turned from there by a quarter clockwise, by a half, or by a quarter
/// anticlockwise.
#[derive(Clone, Copy, Debug, Default, PartialEq, Eq, Hash)]
pub enum Rotation {
    #[default]
    Spawn,
    Right,
    Reverse,
    Left,
}

impl Rotation {
    /// All four rotations, in the order 0, R, 2, L.
    pub const ALL: [Rotation; 4] = [
        Rotation::Spawn,
        Rotation::Right,
        Rotation::Reverse,
        Rotation::Left,
    ];

    /// The index in the order 0, R, 2, L, from 0 to 3.
    pub fn index(self) -> u8
        ensures { result ≡ rotation_index self }
    {
        match self {
            Rotation::Spawn => 0,
            Rotation::Right => 1,
            Rotation::Reverse => 2,
            Rotation::Left => 3,
        }
    }

    /// The letter `0`, `R`, `2` or `L`, as an ASCII byte.
    pub fn letter(self) -> u8
        ensures { result ≡ rotation_letter self }
    {
        match self {
            Rotation::Spawn => b'0',
            Rotation::Right => b'R',
            Rotation::Reverse => b'2',
            Rotation::Left => b'L',
        }
    }

    /// The rotation with this letter: a digit or a capital. `None` exactly if the byte is no rotation's letter.
    pub fn from_letter(byte: u8) -> Option<Rotation>
        ensures { result ≡ rotation_with_letter byte }
    {
        match byte {
            b'0' => Some(Rotation::Spawn),
            b'R' => Some(Rotation::Right),
            b'2' => Some(Rotation::Reverse),
            b'L' => Some(Rotation::Left),
            _ => None,
        }
    }

    /// The rotation after a quarter turn clockwise.
    pub fn clockwise(self) -> Rotation
        ensures { result ≡ clockwise_of self }
    {
        match self {
            Rotation::Spawn => Rotation::Right,
            Rotation::Right => Rotation::Reverse,
            Rotation::Reverse => Rotation::Left,
            Rotation::Left => Rotation::Spawn,
        }
    }

    /// The rotation after a quarter turn anticlockwise.
    pub fn anticlockwise(self) -> Rotation
        ensures { result ≡ anticlockwise_of self }
    {
        match self {
            Rotation::Spawn => Rotation::Left,
            Rotation::Right => Rotation::Spawn,
            Rotation::Reverse => Rotation::Right,
            Rotation::Left => Rotation::Reverse,
        }
    }
}
