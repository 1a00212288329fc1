// The two dialects of fumen.
ghost use Rattle.std.specs.Prelude.{◌≡◌};

/// The dialect of a fumen text, given by its prefix.
#[derive(Clone, Copy, Debug, PartialEq, Eq)]
pub enum Dialect {
    /// `v110@`, with pages of 21 rows.
    V110,
    /// `v115@`, with pages of 23 rows.
    V115,
}

impl Dialect {
    ghost use Rattle.fumen_digits.specs.Dialect.{page_row_count, page_cell_count};

    /// How many rows a page has, without the garbage row below them.
    pub fn rows(self) -> u8
        ensures { result ≡ page_row_count self }
    {
        match self {
            Dialect::V110 => 21,
            Dialect::V115 => 23,
        }
    }

    /// How many cells a page has, including the garbage row.
    pub fn cells(self) -> u8
        ensures { result ≡ page_cell_count self }
    {
        10 * (self.rows() + 1)
    }
}
