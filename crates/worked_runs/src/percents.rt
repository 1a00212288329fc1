// Runs of `percent`: how many queues have a perfect clear, and which have none.
use crate::whole::runs;
use run_outcomes::asserts::{Case, TextCase, is_so, newlines};
use std::test::Fail;

const ONE_ROW: &str = "percent --rows XXXXXX____ --clear-line 1 --patterns";

const FIVE_CELLS: &str = "percent --rows XXXXX_____ --clear-line 1 --patterns";

const OVERHANG: &str =
    "percent --rows XXXXXXXX__/XXXXXX____/XXXXXXXX__ --clear-line 3 --patterns IO --failed 1 --drop";

const FEW_ROWS: &[Case] = &[
    (ONE_ROW, &["*p2"], b"queues 42\ngood 12\nrate 2857\n"),
    (
        ONE_ROW,
        &["*p2", "--hold", "avoid"],
        b"queues 42\ngood 6\nrate 1428\n",
    ),
    (FIVE_CELLS, &["*p2"], b"queues 42\ngood 0\nrate 0\n"),
    (FIVE_CELLS, &[""], b"queues 1\ngood 0\nrate 0\n"),
    (OVERHANG, &["soft"], b"queues 1\ngood 1\nrate 10000\n"),
    // Queues that fail are listed first.
    (
        ONE_ROW,
        &["[TI]p2", "--hold", "avoid", "--failed", "5"],
        b"failed TI\nqueues 2\ngood 1\nrate 5000\n",
    ),
    (
        ONE_ROW,
        &["*p2", "--failed", "3"],
        b"failed LO\nfailed LZ\nfailed LT\nqueues 42\ngood 12\nrate 2857\n",
    ),
    (
        FIVE_CELLS,
        &["", "--failed", "1"],
        b"failed \nqueues 1\ngood 0\nrate 0\n",
    ),
    (
        OVERHANG,
        &["hard"],
        b"failed IO\nqueues 1\ngood 0\nrate 0\n",
    ),
];

#[test]
fn few_rows(rt: HostRuntime) -> Result<(), Fail> {
    runs(rt.alloc()).lists_all(FEW_ROWS)
}

#[test]
fn all_failed_queues(rt: HostRuntime) -> Result<(), Fail> {
    let all = ["*p2", "--failed", "10000000"];
    let tail = b"\nfailed SJ\nqueues 42\ngood 12\nrate 2857\n";
    runs(rt.alloc()).ends_with(ONE_ROW, &all, b"", tail)?;
    let run = runs(rt.alloc()).over(ONE_ROW, &all, b"")?;
    is_so(newlines(run.out.bytes()) == 33, "33 lines")
}

const AN_OPENER: &[u8] = b"queues 840\ngood 514\nrate 6119\n";

const FOUR_ROWS: &[TextCase] = &[
    (
        "percent --patterns *p4 --rows XXXX___XXX/XXXX___XXX/XXXX___XXX/XXXX___XXX",
        b"",
        b"queues 840\ngood 352\nrate 4190\n",
    ),
    (
        "percent --patterns *p4 --rows XXXX____XX/XXXX___XXX/XXXX__XXXX/XXXX___XXX",
        b"",
        AN_OPENER,
    ),
    (
        "percent --patterns *p4 --tetfu v115@9gD8DeF8CeG8BeH8CeC8JeAgH",
        b"",
        AN_OPENER,
    ),
    (
        "percent --patterns *p4 --page 1 --tetfu -",
        b"v115@9gD8DeF8CeG8BeH8CeC8JeAgH",
        AN_OPENER,
    ),
    (
        "percent --patterns *p4 --held I --rows XXX_____XX/XXX____XXX/XXX___XXXX/XXX____XXX",
        b"",
        b"queues 840\ngood 711\nrate 8464\n",
    ),
    (
        "percent --patterns *p4 --held T --rows XXXXXX____/XXXXXX____/XXXXXX____/XXXXXX____",
        b"",
        b"queues 840\ngood 744\nrate 8857\n",
    ),
];

#[test]
fn four_rows(rt: HostRuntime) -> Result<(), Fail> {
    runs(rt.alloc()).writes_all(FOUR_ROWS)
}

const SIX_COLUMNS: &str =
    "percent --patterns *p7 --rows XXXX______/XXXX______/XXXX______/XXXX______";

const SIX_COLUMNS_OPEN: &[Case] = &[
    (SIX_COLUMNS, &[], b"queues 5040\ngood 5040\nrate 10000\n"),
    (
        SIX_COLUMNS,
        &["--hold", "avoid"],
        b"queues 5040\ngood 1902\nrate 3773\n",
    ),
];

#[test]
fn six_columns_open(rt: HostRuntime) -> Result<(), Fail> {
    runs(rt.alloc()).lists_all(SIX_COLUMNS_OPEN)
}

const FAULTS: &[TextCase] = &[
    ("percent --rows X", b"", b"input: Words.MissingOption 3\n"),
    ("percent --keys yes", b"", b"input: Words.UnknownOption 1\n"),
    ("path --failed 1", b"", b"input: Words.UnknownOption 1\n"),
    (
        "percent --failed 10000001",
        b"",
        b"input: Words.BadValue 2\n",
    ),
    (
        "percent --tetfu v115@ --patterns I",
        b"",
        b"input: NoPage 1 0\n",
    ),
    (
        "percent --rows XXXX______ --clear-line 2 --patterns III",
        b"",
        b"input: TooFewPieces 3 4\n",
    ),
    (
        "percent --rows XXXXXXXXXX --patterns Q",
        b"",
        b"input: FullRow 0\n",
    ),
    (
        "percent --rows XXXXXX____ --clear-line 1 --patterns TQ",
        b"",
        b"input: Pattern.Unexpected 1\n",
    ),
    (
        "percent --rows XXXXXX____ --clear-line 1 --patterns ",
        b"",
        b"input: TooFewPieces 0 1\n",
    ),
    (
        "percent --patterns I --tetfu -",
        b"hello",
        b"input: Fumen.NoFumen\n",
    ),
];

#[test]
fn faults_of_percent(rt: HostRuntime) -> Result<(), Fail> {
    runs(rt.alloc()).refuses_all_texts(FAULTS)
}
