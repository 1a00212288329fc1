// Runs that end, with the sequences that they list.
use crate::whole::runs;
use run_outcomes::asserts::Case;
use std::test::Fail;

const ONE_ROW: &str = "path --rows XXXXXX____ --clear-line 1 --patterns";

const ONE_ROW_AVOIDED: &str = "path --rows XXXXXX____ --clear-line 1 --hold avoid --patterns";

const FIVE_CELLS: &str = "path --rows XXXXX_____ --clear-line 1 --patterns I --hold";

const TWO_ROWS: &str = "path --rows XXXXXX____/XXXXXX____ --clear-line 2 --patterns";

const LAID_FLAT: &[u8] = b"I0:7,0\nend 1\n";

const TWO_FLAT: &[u8] = b"I0:7,0 I0:7,0\nend 1\n";

const TWO_SQUARES: &[u8] = b"O0:6,0 O0:8,0\nO0:8,0 O0:6,0\nend 2\n";

const TWO_BENT: &[u8] = b"L0:8,0 L2:7,1\nL2:7,1 L0:8,0\nend 2\n";

const SOLUTIONS: &[Case] = &[
    (ONE_ROW_AVOIDED, &["I"], LAID_FLAT),
    (ONE_ROW_AVOIDED, &["T"], b"end 0\n"),
    (FIVE_CELLS, &["use"], b"end 0\n"),
    (FIVE_CELLS, &["avoid"], b"end 0\n"),
    (TWO_ROWS, &["II", "--hold", "use"], TWO_FLAT),
    (TWO_ROWS, &["II", "--hold", "avoid"], TWO_FLAT),
    (TWO_ROWS, &["OO", "--hold", "use"], TWO_SQUARES),
    (TWO_ROWS, &["OO", "--hold", "avoid"], TWO_SQUARES),
    (TWO_ROWS, &["LL", "--hold", "use"], TWO_BENT),
    (TWO_ROWS, &["LL", "--hold", "avoid"], TWO_BENT),
    (
        "path --patterns I --rows",
        &["XXXXXXXXX_/XXXXXXXXX_/XXXXXXXXX_/XXXXXXXXX_"],
        b"IR:9,2\nend 1\n",
    ),
];

#[test]
fn one_piece_and_two(rt: HostRuntime) -> Result<(), Fail> {
    runs(rt.alloc()).lists_all(SOLUTIONS)
}

const OVERHANG: &str =
    "path --rows XXXXXXXX__/XXXXXX____/XXXXXXXX__ --clear-line 3 --patterns IO --drop";

const PLAYS: &[Case] = &[
    (ONE_ROW, &["TI"], LAID_FLAT),
    (ONE_ROW, &["TI", "--hold", "avoid"], b"end 0\n"),
    (ONE_ROW, &["[TI]p2"], LAID_FLAT),
    (TWO_ROWS, &["IT"], b"end 0\n"),
    (TWO_ROWS, &["TII"], TWO_FLAT),
    // Hard drops leave some cells out of reach.
    (
        TWO_ROWS,
        &["LL", "--drop", "hard"],
        b"L0:8,0 L2:7,1\nend 1\n",
    ),
    (OVERHANG, &["hard"], b"end 0\n"),
    (OVERHANG, &["soft"], b"I0:7,1 O0:8,0\nend 1\n"),
];

#[test]
fn held_pieces_and_hard_drops(rt: HostRuntime) -> Result<(), Fail> {
    runs(rt.alloc()).lists_all(PLAYS)
}

const ONE_ROW_KEYED: &str =
    "path --rows XXXXXX____ --clear-line 1 --patterns I --hold avoid --keys";

/// Each placement is followed by its least key word.
const RUNS_WITH_KEYS: &[Case] = &[
    (ONE_ROW_KEYED, &["yes"], b"I0:7,0:RRRH\nend 1\n"),
    (ONE_ROW_KEYED, &["no"], LAID_FLAT),
    (
        TWO_ROWS,
        &["LL", "--drop", "hard", "--keys", "yes"],
        b"L0:8,0:RRRRH L2:7,1:RRRCCH\nend 1\n",
    ),
    (
        "path --patterns I --keys yes --rows",
        &["XXXXXXXXX_/XXXXXXXXX_/XXXXXXXXX_/XXXXXXXXX_"],
        b"IR:9,2:RRRCRH\nend 1\n",
    ),
    // A sequence may have keys of its own.
    (
        TWO_ROWS,
        &["OO", "--keys", "yes", "--after", "O0:6,0:RRH O0:8,0:LDCAH"],
        b"O0:8,0:RRRRH O0:6,0:RRH\nend 1\n",
    ),
];

#[test]
fn runs_with_keys(rt: HostRuntime) -> Result<(), Fail> {
    runs(rt.alloc()).lists_all(RUNS_WITH_KEYS)
}
