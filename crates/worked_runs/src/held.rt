// A piece that is held at the start, and up to eight rows.
use crate::whole::runs;
use run_outcomes::asserts::Case;
use std::test::Fail;

const ONE_ROW: &str = "path --rows XXXXXX____ --clear-line 1 --patterns";

const TWO_ROWS: &str = "path --rows XXXXXX____/XXXXXX____ --clear-line 2 --patterns";

const TWO_FLAT: &[u8] = b"I0:7,0 I0:7,0\nend 1\n";

const WITH_L: &[u8] = b"L0:8,0 L2:7,1\nL2:7,1 L0:8,0\nend 2\n";

const WITH_O: &[u8] = b"O0:6,0 O0:8,0\nO0:8,0 O0:6,0\nend 2\n";

const WITH_J: &[u8] = b"J0:7,0 J2:8,1\nJ2:8,1 J0:7,0\nend 2\n";

const RATES: &str = "percent --rows XXXXXX____ --clear-line 1 --patterns";

const HELD_PIECES: &[Case] = &[
    (TWO_ROWS, &["I", "--held", "I"], TWO_FLAT),
    (TWO_ROWS, &["I", "--held", "i"], TWO_FLAT),
    (ONE_ROW, &["T", "--held", "i"], b"I0:7,0\nend 1\n"),
    (ONE_ROW, &["", "--held", "I"], b"I0:7,0\nend 1\n"),
    (ONE_ROW, &["", "--held", "T"], b"end 0\n"),
    (
        ONE_ROW,
        &["T", "--held", "I", "--hold", "avoid"],
        b"end 0\n",
    ),
    // A piece of each kind.
    (TWO_ROWS, &["*", "--held", "I"], TWO_FLAT),
    (TWO_ROWS, &["*", "--held", "i"], TWO_FLAT),
    (TWO_ROWS, &["*", "--held", "L"], WITH_L),
    (TWO_ROWS, &["*", "--held", "l"], WITH_L),
    (TWO_ROWS, &["*", "--held", "O"], WITH_O),
    (TWO_ROWS, &["*", "--held", "o"], WITH_O),
    (TWO_ROWS, &["*", "--held", "Z"], b"end 0\n"),
    (TWO_ROWS, &["*", "--held", "z"], b"end 0\n"),
    (TWO_ROWS, &["*", "--held", "T"], b"end 0\n"),
    (TWO_ROWS, &["*", "--held", "t"], b"end 0\n"),
    (TWO_ROWS, &["*", "--held", "J"], WITH_J),
    (TWO_ROWS, &["*", "--held", "j"], WITH_J),
    (TWO_ROWS, &["*", "--held", "S"], b"end 0\n"),
    (TWO_ROWS, &["*", "--held", "s"], b"end 0\n"),
    // Rates.
    (
        RATES,
        &["*", "--held", "I"],
        b"queues 7\ngood 7\nrate 10000\n",
    ),
    (
        RATES,
        &["*", "--held", "i"],
        b"queues 7\ngood 7\nrate 10000\n",
    ),
    (
        RATES,
        &["*", "--held", "T"],
        b"queues 7\ngood 1\nrate 1428\n",
    ),
    (
        RATES,
        &["*", "--held", "I", "--hold", "avoid"],
        b"queues 7\ngood 1\nrate 1428\n",
    ),
];

#[test]
fn a_held_piece_is_played(rt: HostRuntime) -> Result<(), Fail> {
    runs(rt.alloc()).lists_all(HELD_PIECES)
}

const COLUMN: &str =
    "XXXXXXXXX_/XXXXXXXXX_/XXXXXXXXX_/XXXXXXXXX_/XXXXXXXXX_/XXXXXXXXX_/XXXXXXXXX_/XXXXXXXXX_";

const TWO_COLUMNS: &str =
    "XXXXXXXX__/XXXXXXXX__/XXXXXXXX__/XXXXXXXX__/XXXXXXXX__/XXXXXXXX__/XXXXXXXX__/XXXXXXXX__";

const HIGH: &str = "path --clear-line 8 --patterns";

const UPRIGHT: &[u8] = b"IR:9,2 IR:9,2\nend 1\n";

const EIGHT_ROWS: &[Case] = &[
    (HIGH, &["II", "--rows", COLUMN], UPRIGHT),
    (HIGH, &["I", "--held", "I", "--rows", COLUMN], UPRIGHT),
    (HIGH, &["IT", "--rows", COLUMN], b"end 0\n"),
    (
        HIGH,
        &["OOOO", "--rows", TWO_COLUMNS],
        b"O0:8,0 O0:8,0 O0:8,0 O0:8,0\nend 1\n",
    ),
    (
        HIGH,
        &["IIII", "--rows", TWO_COLUMNS],
        b"IR:8,2 IR:9,2 IR:8,2 IR:9,2\nIR:8,2 IR:9,2 IR:9,2 IR:8,2\nIR:8,2 IR:8,6 IR:9,2 IR:9,2\nIR:9,2 IR:8,2 IR:8,2 IR:9,2\nIR:9,2 IR:8,2 IR:9,2 IR:8,2\nIR:9,2 IR:9,6 IR:8,2 IR:8,2\nend 6\n",
    ),
];

#[test]
fn eight_rows(rt: HostRuntime) -> Result<(), Fail> {
    runs(rt.alloc()).lists_all(EIGHT_ROWS)
}

const FAULTS: &[Case] = &[
    // A held piece is one of the pieces at hand.
    (
        TWO_ROWS,
        &["I", "--held", "I", "--hold", "avoid"],
        b"input: TooFewPieces 1 2\n",
    ),
    (TWO_ROWS, &["", "--held", "I"], b"input: TooFewPieces 1 2\n"),
    (
        ONE_ROW,
        &["", "--held", "I", "--hold", "avoid"],
        b"input: TooFewPieces 0 1\n",
    ),
    // Values of `--held`.
    ("path --held TT", &[], b"input: Words.BadValue 2\n"),
    ("path --held Q", &[], b"input: Words.BadValue 2\n"),
    ("path --held ", &[], b"input: Words.BadValue 2\n"),
    ("path --held", &[], b"input: Words.MissingValue 1\n"),
    (
        "path --held T --held T",
        &[],
        b"input: Words.RepeatedOption 3\n",
    ),
    // Heights.
    (
        "path --clear-line 7",
        &[],
        b"input: Words.MissingOption 3\n",
    ),
    (
        "path --clear-line 8",
        &[],
        b"input: Words.MissingOption 3\n",
    ),
    ("path --clear-line 9", &[], b"input: Words.BadValue 2\n"),
    ("path --clear-line 0", &[], b"input: Words.BadValue 2\n"),
];

#[test]
fn faults_of_held_pieces_and_heights(rt: HostRuntime) -> Result<(), Fail> {
    runs(rt.alloc()).refuses_all(FAULTS)
}
