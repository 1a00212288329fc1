// The keys of a player, and the two drop modes.

/// A key. It moves a piece by one column or row, or turns it by a quarter.
#[derive(Clone, Copy, Debug, Default, PartialEq, Eq)]
pub enum Key {
    #[default]
    Left,
    Right,
    Down,
    Clockwise,
    Anti,
}

/// Whether Down may be pressed. With soft drop it may; with hard drop a piece falls only at its end.
#[derive(Clone, Copy, Debug, PartialEq, Eq)]
pub enum DropMode {
    Soft,
    Hard,
}

impl Key {
    ghost use Rattle.std.specs.Prelude.{◌≡◌};
    ghost use Rattle.moves.specs.Keys.{key_letter};

    /// All five keys, in the order of their letters: L, R, D, C, A.
    pub const ALL: [Key; 5] = [Key::Left, Key::Right, Key::Down, Key::Clockwise, Key::Anti];

    /// The letter `L`, `R`, `D`, `C` or `A`, as an ASCII byte.
    pub fn letter(self) -> u8
        ensures { result ≡ key_letter self }
    {
        match self {
            Key::Left => b'L',
            Key::Right => b'R',
            Key::Down => b'D',
            Key::Clockwise => b'C',
            Key::Anti => b'A',
        }
    }
}

impl DropMode {
    ghost use Rattle.std.specs.Prelude.{◌≡◌};
    ghost use Rattle.moves.specs.Keys.{allows};

    /// Whether this key may be pressed.
    pub fn allows(self, key: Key) -> bool
        ensures { result ≡ allows self key }
    {
        match (self, key) {
            (DropMode::Hard, Key::Down) => false,
            _ => true,
        }
    }
}
