// Runs of `combo`: the longest run of placements that each remove a row.
use crate::whole::runs;
use run_outcomes::asserts::{Case, TextCase};
use std::test::Fail;

const ONE_ROW: &str = "combo --rows XXXXXX____ --patterns";

const TWO_ROWS: &str = "combo --rows XXXXXX____/XXXXXX____ --patterns";

const COLUMN: &str =
    "combo --rows XXXXXXXXX_/XXXXXXXXX_/XXXXXXXXX_/XXXXXXXXX_/XXXXXXXXX_ --patterns";

/// Twenty rows with four open columns, in which three cells are filled.
const FOUR_COLUMNS: &str =
    "combo --rows XXXXXX____/XXXXXX____/XXXXXX____/XXXXXX____/XXXXXX____/XXXXXX____/XXXXXX____/XXXXXX____/XXXXXX____/XXXXXX____/XXXXXX____/XXXXXX____/XXXXXX____/XXXXXX____/XXXXXX____/XXXXXX____/XXXXXX____/XXXXXX____/XXXXXX____/XXXXXXXXX_ --patterns";

/// All 23 rows with four open columns below the spawn.
const ALL_ROWS: &str =
    "combo --rows XXX____XXX/XXX____XXX/XXX____XXX/XXX____XXX/XXX____XXX/XXX____XXX/XXX____XXX/XXX____XXX/XXX____XXX/XXX____XXX/XXX____XXX/XXX____XXX/XXX____XXX/XXX____XXX/XXX____XXX/XXX____XXX/XXX____XXX/XXX____XXX/XXX____XXX/XXX____XXX/XXX____XXX/XXX____XXX/XXX____XXX --patterns";

/// A row under an overhang that hard drops leave open.
const OVERHANG: &str = "combo --rows _______X__/XXXXXXX___ --patterns L --drop";

const SHORT_RUNS: &[Case] = &[
    (TWO_ROWS, &["II"], b"I0:7,0 I0:7,0\ncombo 2\n"),
    (ONE_ROW, &["TI"], b"I0:7,0\ncombo 1\n"),
    (ONE_ROW, &["TI", "--hold", "avoid"], b"combo 0\n"),
    (COLUMN, &["II"], b"IR:9,2 IR:9,2\ncombo 2\n"),
    (OVERHANG, &["soft"], b"L0:8,0\ncombo 1\n"),
    (OVERHANG, &["hard"], b"combo 0\n"),
    ("combo --patterns I --rows", &[""], b"combo 0\n"),
    ("combo --patterns I --rows __________", &[], b"combo 0\n"),
    (ONE_ROW, &[""], b"combo 0\n"),
    ("combo --patterns IIII --rows XXXXX_____", &[], b"combo 0\n"),
];

#[test]
fn short_runs(rt: HostRuntime) -> Result<(), Fail> {
    runs(rt.alloc()).lists_all(SHORT_RUNS)
}

const UNDER_THE_EDGE: &str = "combo --rows XXXXXXXXX_/XXXXXXX___ --patterns L";

const RUNS_WITH_OPTIONS: &[Case] = &[
    (ONE_ROW, &["I", "--keys", "yes"], b"I0:7,0:RRRH\ncombo 1\n"),
    (
        TWO_ROWS,
        &["II", "--keys", "yes"],
        b"I0:7,0:RRRH I0:7,0:RRRH\ncombo 2\n",
    ),
    (ONE_ROW, &["T", "--keys", "yes"], b"combo 0\n"),
    // A held piece is played.
    (ONE_ROW, &["", "--held", "i"], b"I0:7,0\ncombo 1\n"),
    (
        ONE_ROW,
        &["", "--held", "I", "--hold", "avoid"],
        b"combo 0\n",
    ),
    (TWO_ROWS, &["I", "--held", "I"], b"I0:7,0 I0:7,0\ncombo 2\n"),
    // Another table of offsets.
    (UNDER_THE_EDGE, &[], b"L0:8,0\ncombo 1\n"),
    (
        UNDER_THE_EDGE,
        &["--kicks", "LR:0,0/0,0/0,0/0,0/0,0;LL:0,0/0,0/0,0/0,0/0,0"],
        b"LL:9,1\ncombo 1\n",
    ),
];

#[test]
fn runs_with_options(rt: HostRuntime) -> Result<(), Fail> {
    runs(rt.alloc()).lists_all(RUNS_WITH_OPTIONS)
}

const QUEUE: &str = "TIOSZJLLJSZOITJZSTILOZ";

const LONG_RUNS: &[Case] = &[
    (
        ALL_ROWS,
        &["IIIIIIIIIIIIIIIIIIIIII", "--held", "I"],
        b"I0:4,0 I0:4,0 I0:4,0 I0:4,0 I0:4,0 I0:4,0 I0:4,0 I0:4,0 I0:4,0 I0:4,0 I0:4,0 I0:4,0 I0:4,0 I0:4,0 I0:4,0 I0:4,0 I0:4,0 I0:4,0 I0:4,0 I0:4,0 I0:4,0 I0:4,0 I0:4,0\ncombo 23\n",
    ),
    (
        FOUR_COLUMNS,
        &[QUEUE],
        b"I0:7,1 TL:9,1 O0:6,0 ZR:8,1 J0:7,1 L0:8,1 LR:6,1 J0:8,1 S0:8,0 ZR:6,1 O0:8,0 IR:6,2 T0:8,0 J2:8,1 SR:6,1 Z0:8,0 TL:9,1 I0:7,2 L0:7,1 O0:6,0\ncombo 20\n",
    ),
    (
        FOUR_COLUMNS,
        &[QUEUE, "--hold", "avoid"],
        b"TL:9,1 I0:7,2 O0:6,0 SR:7,1\ncombo 4\n",
    ),
    (
        FOUR_COLUMNS,
        &[QUEUE, "--drop", "hard"],
        b"I0:7,1 TL:9,1 O0:6,0 ZR:8,1 J0:7,1 L0:8,1 LR:6,1 S0:8,0 SR:6,1 Z0:8,0 J2:8,1 I0:7,1 TR:6,1 J2:8,1 ZR:8,1 O0:6,0 T2:8,1 I0:7,1 L2:7,1 SR:8,1\ncombo 20\n",
    ),
];

#[test]
fn long_runs(rt: HostRuntime) -> Result<(), Fail> {
    runs(rt.alloc()).lists_all(LONG_RUNS)
}

const FIELDS_OF_SOURCES: &[TextCase] = &[
    (
        "combo --tetfu - --patterns I",
        b"v115@bhF8NeAgH",
        b"I0:7,0\ncombo 1\n",
    ),
    (
        "combo --tetfu v115@bhF8NeAgH --patterns I --page 1",
        b"",
        b"I0:7,0\ncombo 1\n",
    ),
];

#[test]
fn the_field_of_a_source(rt: HostRuntime) -> Result<(), Fail> {
    runs(rt.alloc()).writes_all(FIELDS_OF_SOURCES)
}

const FAULTS: &[Case] = &[
    (ONE_ROW, &["*p2"], b"input: NotOneQueue 42\n"),
    (ONE_ROW, &["[TI]"], b"input: NotOneQueue 2\n"),
    (ONE_ROW, &["?"], b"input: Pattern.Unexpected 0\n"),
    (
        "combo --clear-line 4",
        &[],
        b"input: Words.UnknownOption 1\n",
    ),
    ("combo --limit 1", &[], b"input: Words.UnknownOption 1\n"),
    ("combo --patterns I", &[], b"input: Words.MissingOption 3\n"),
    (
        "combo --rows XXXXXXXXXX --patterns *p2",
        &[],
        b"input: FullRow 0\n",
    ),
    (
        "combo --rows X --patterns ?",
        &[],
        b"input: Rows.BadRowLength 1\n",
    ),
    (
        "combo --tetfu v115@ --patterns *p2",
        &[],
        b"input: NoPage 1 0\n",
    ),
    (
        ONE_ROW,
        &["I", "--kicks", "TR:0,0"],
        b"input: Kicks.Unexpected 6\n",
    ),
];

#[test]
fn faults(rt: HostRuntime) -> Result<(), Fail> {
    runs(rt.alloc()).refuses_all(FAULTS)
}
