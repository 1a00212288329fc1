// The first field of a page's line: the cells.
ghost use Rattle.std.specs.Prelude.{◌≡◌, ◌+◌, ◌<◌, ◌≤◌, ◌*◌, ◌==◌, ◌++◌, drop, position, take, None, Some, length, MatchOption, IfSome};
ghost use Rattle.arrayvec.specs.ArrayVec.{array_vec_len};
ghost use Rattle.page_list.specs.CellsReading.{cells_in, cells_with_rows, colour_in, cut_at, garbage_colours, rows_at, rows_colours};

use arrayvec::ArrayVec;

/// The colour that a letter stands for, as `fumen_pages::letters_of` writes it.
fn colour_in(letter: u8) -> Option<u8>
    ensures value { result ≡ colour_in letter }
    ensures small { IfSome result (λ colour. colour ≤ 8) }
{
    match letter {
        b'_' => Some(0),
        b'I' => Some(1),
        b'L' => Some(2),
        b'O' => Some(3),
        b'Z' => Some(4),
        b'T' => Some(5),
        b'J' => Some(6),
        b'S' => Some(7),
        b'X' => Some(8),
        _ => None,
    }
}

/// The index of the first byte with this value.
fn place_of(byte: u8, text: &[u8]) -> Option<usize>
    ensures place { result ≡ position (λ letter. letter == byte) text.now }
    ensures within { IfSome result (λ place. place < length text.now) }
{
    text.iter().position(|letter| *letter == byte)
}

/// The text before the first byte with this value, and the text behind it. `None` exactly if the text doesn't have the
/// byte.
#[tactic(auto, unfolding(crate::specs::CellsReading::cut_at))]
pub fn cut_at(byte: u8, text: &[u8]) -> Option<(&[u8], &[u8])>
    ensures { MatchOption result (cut_at byte text.now ≡ None)
        (λ cut. cut_at byte text.now ≡ Some (cut.0.now, cut.1.now)) }
{
    let at = place_of(byte, text)?;
    Some((&text[..at], &text[at + 1..]))
}

/// The colours of rows of ten letters, with a `/` between each two.
fn rows_at(text: &[u8]) -> Option<ArrayVec<u8, 230>>
    requires { length text.now ≤ 252 }
    ensures value { MatchOption result (rows_at 0 text.now ≡ None)
        (λ colours. rows_at 0 text.now ≡ Some colours.items) }
    ensures size { IfSome result (λ colours. 11 * array_vec_len colours ≡ 10 * length text.now + 10) }
{
    let mut colours = ArrayVec::new();
    let mut column = 0usize;
    for place in 0..text.len() {
        if column == 10 {
            if text[place] != b'/' {
                return None;
            }
            column = 0;
        } else {
            colours.push(colour_in(text[place])?);
            column += 1;
        }
    }
    if column == 10 { Some(colours) } else { None }
}

/// The colours of up to 23 rows.
#[tactic(auto, unfolding(crate::specs::CellsReading::rows_colours))]
fn rows_colours(text: &[u8]) -> Option<ArrayVec<u8, 230>>
    ensures { MatchOption result (rows_colours text.now ≡ None)
        (λ colours. rows_colours text.now ≡ Some colours.items) }
{
    if text.is_empty() {
        return Some(ArrayVec::new());
    }
    if text.len() > 252 {
        return None;
    }
    rows_at(text)
}

/// The colours of the garbage row, which may be left out.
#[tactic(auto, unfolding(crate::specs::CellsReading::garbage_colours))]
fn garbage_colours(text: &[u8]) -> Option<[u8; 10]>
    ensures { result ≡ garbage_colours text.now }
{
    if text.is_empty() {
        return Some([0; 10]);
    }
    if text.len() > 10 {
        return None;
    }
    let colours = rows_at(text)?;
    let mut garbage = [0; 10];
    garbage.copy_from_slice(colours.as_slice());
    Some(garbage)
}

/// Writes a part over the cells from this place on.
fn put(cells: &mut [u8; 240], place: usize, part: &[u8])
    requires { place + length part.now ≤ 240 }
    ensures { cells.new ≡ take place cells.old ++ (part.now ++ drop (place + length part.now) cells.old) }
{
    cells[place..place + part.len()].copy_from_slice(part);
}

/// The 240 cells: these rows with empty ones above them, and the garbage row.
fn cells_of(rows: &[u8], garbage: &[u8; 10]) -> [u8; 240]
    requires { length rows.now ≤ 230 }
    ensures { result ≡ cells_with_rows rows.now garbage.now }
{
    let mut cells = [0; 240];
    put(&mut cells, 230, garbage);
    put(&mut cells, 230 - rows.len(), rows);
    cells
}

/// The cells of a text: up to 23 rows of ten letters down to row 0, separated by `/`, then a bar, then the garbage row,
/// which may be left out. `None` exactly if the text doesn't have this form.
#[tactic(auto, unfolding(crate::specs::CellsReading::cells_in))]
pub fn cells_in(text: &[u8]) -> Option<[u8; 240]>
    ensures { result ≡ cells_in text.now }
{
    let (rows, garbage) = cut_at(b'|', text)?;
    let rows = rows_colours(rows)?;
    let garbage = garbage_colours(garbage)?;
    Some(cells_of(rows.as_slice(), &garbage))
}
