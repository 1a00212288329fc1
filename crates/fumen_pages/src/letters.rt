// The letters of a page's cells and rows.
ghost use Rattle.std.specs.Prelude.{◌≡◌, ◌*◌, ◌<◌, ◌≤◌, All, take, drop};
ghost use Rattle.std.specs.List.{prefix_len};
ghost use Rattle.fumen_pages.specs.Cells.{IsColour};
ghost use Rattle.fumen_pages.specs.Next.{rows_in};
ghost use Rattle.fumen_pages.specs.Letters.{colour_letter, letters_of, is_blank};

/// The letter of a cell's colour: `_` for 0 (empty), the piece's letter for the codes 1 to 7, and `X` for 8 (grey).
#[tactic(auto, unfolding(crate::specs::Letters::colour_letter))]
pub fn colour_letter(colour: u8) -> u8
    requires { colour ≤ 8 }
    ensures { result ≡ colour_letter colour }
{
    b"_ILOZTJSX"[colour as usize]
}

/// The letters of a page's cells, in the order of the cells.
pub fn letters_of(cells: &[u8; 240]) -> [u8; 240]
    requires { All IsColour cells.now }
    ensures { result ≡ letters_of cells.now }
{
    let mut letters = [b'_'; 240];
    for index in 0..240 {
        letters[index] = colour_letter(cells[index]);
    }
    letters
}

/// The letters of a row, counted from the top: row 22 has index 0, row 0 has index 22, and the garbage row has index
/// 23.
pub fn row(letters: &[u8; 240], index: usize) -> &[u8]
    requires { index < 24 }
    ensures { result.now ≡ take 10 (drop (10 * index) letters.now) }
{
    &letters[10 * index..10 * index + 10]
}

/// Whether a row has only `_`.
#[tactic(auto, unfolding(crate::specs::Letters::is_blank))]
pub fn is_blank(row: &[u8]) -> bool
    ensures { result ≡ is_blank row.now }
{
    row.iter().all(|letter| *letter == b'_')
}

/// The index of the highest row that isn't blank, counted from the top, or 23 if rows 0 to 22 are all blank.
pub fn first_shown(letters: &[u8; 240]) -> usize
    ensures value { result ≡ prefix_len is_blank (rows_in 23 letters.now) }
    ensures most { result ≤ 23 }
{
    for index in 0..23 {
        if !is_blank(row(letters, index)) {
            return index;
        }
    }
    23
}
