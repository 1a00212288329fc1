// How many pieces of each kind there are.
ghost use Rattle.std.specs.Prelude.{◌≡◌};
ghost use Rattle.prune.specs.OnePart.{less_one};
ghost use Rattle.prune.specs.Tiling.{supply_in};

use srs::Piece;

/// A supply in one word.
#[derive(Clone, Copy)]
pub struct SupplyWord {
    /// Eight bits for each kind, in the order of piece codes.
    pub(crate) counts: u64,
}

impl SupplyWord {
    ghost use Rattle.std.specs.Prelude.{◌↔◌, ◌≤◌, IsTrue, min, sum_by};
    ghost use Rattle.srs.specs.declared.piece.Piece.{Piece};
    ghost use Rattle.srs.specs.Piece.{all_pieces};
    ghost use Rattle.prune.specs.Mirror.{mirrored_supply};
    ghost use Rattle.empty_cells.specs.SupplyWords.{supply_of};

    /// The supply whose entries stand in the order of piece codes.
    #[inline(always)]
    pub fn new(supply: &[u8; 7]) -> SupplyWord
        ensures { supply_of result ≡ supply_in supply.now }
    {
        let [i, l, o, z, t, j, s] = *supply;
        SupplyWord {
            counts: u64::from_le_bytes([i, l, o, z, t, j, s, 0]),
        }
    }

    /// How many pieces of this kind it has.
    #[inline(always)]
    pub fn count_of(self, piece: Piece) -> u8
        ensures { result ≡ supply_of self piece }
    {
        (self.counts >> (8 * (piece.code() - 1)) & 255) as u8
    }

    /// Its entries, in the order of piece codes.
    #[inline(always)]
    pub fn entries(self) -> [u8; 7]
        ensures { supply_in result ≡ supply_of self }
    {
        [
            self.count_of(Piece::I),
            self.count_of(Piece::L),
            self.count_of(Piece::O),
            self.count_of(Piece::Z),
            self.count_of(Piece::T),
            self.count_of(Piece::J),
            self.count_of(Piece::S),
        ]
    }

    /// How many pieces it has in all.
    #[inline(always)]
    pub(crate) fn pieces(self) -> u16
        ensures number { result ≡ sum_by (supply_of self) all_pieces }
        ensures small { result ≤ 1785 }
    {
        u16::from(self.count_of(Piece::I))
            + u16::from(self.count_of(Piece::L))
            + u16::from(self.count_of(Piece::O))
            + u16::from(self.count_of(Piece::Z))
            + u16::from(self.count_of(Piece::T))
            + u16::from(self.count_of(Piece::J))
            + u16::from(self.count_of(Piece::S))
    }

    /// The supply with one piece of this kind fewer, if it has one.
    #[inline(always)]
    pub fn without_one(self, piece: Piece) -> SupplyWord
        ensures { supply_of result ≡ less_one (supply_of self) piece }
    {
        if self.count_of(piece) == 0 {
            return self;
        }
        SupplyWord {
            counts: self.counts - (1 << (8 * (piece.code() - 1))),
        }
    }

    /// The supply with at most this many pieces of each kind.
    #[inline(always)]
    pub fn at_most(self, most: u8) -> SupplyWord
        ensures { (piece : Piece) → supply_of result piece ≡ min most (supply_of self piece) }
    {
        let [i, l, o, z, t, j, s, _] = self.counts.to_le_bytes();
        SupplyWord::new(&[
            most.min(i),
            most.min(l),
            most.min(o),
            most.min(z),
            most.min(t),
            most.min(j),
            most.min(s),
        ])
    }

    /// The supply with each kind replaced by its mirror image.
    #[inline(always)]
    pub fn mirrored(self) -> SupplyWord
        ensures { supply_of result ≡ mirrored_supply (supply_of self) }
    {
        let [i, l, o, z, t, j, s, _] = self.counts.to_le_bytes();
        SupplyWord::new(&[i, j, o, s, t, l, z])
    }

    /// Whether both are the same.
    #[inline(always)]
    pub fn is_equal(self, other: SupplyWord) -> bool
        ensures { IsTrue result ↔ (self ≡ other) }
    {
        self.counts == other.counts
    }
}
