// Runs of `path` with the number of floods after the report.
use crate::whole::runs;
use run_outcomes::asserts::Case;
use std::test::Fail;

const ONE_ROW: &str = "path --clear-line 1 --patterns I --stats yes --rows";

const TWO_ROWS: &str = "path --rows XXXXXX____/XXXXXX____ --clear-line 2 --patterns OO --stats";

const FEW_FLOODS: &[Case] = &[
    (ONE_ROW, &["XXXXXX____"], b"I0:7,0\nend 1\nfloods 1\n"),
    (ONE_ROW, &["XXXXX_____"], b"end 0\nfloods 0\n"),
    (ONE_ROW, &["__XXXX__XX"], b"end 0\nfloods 0\n"),
    (
        TWO_ROWS,
        &["yes"],
        b"O0:6,0 O0:8,0\nO0:8,0 O0:6,0\nend 2\nfloods 3\n",
    ),
    (TWO_ROWS, &["no"], b"O0:6,0 O0:8,0\nO0:8,0 O0:6,0\nend 2\n"),
    (
        TWO_ROWS,
        &["yes", "--limit", "1"],
        b"O0:6,0 O0:8,0\nlimit 1\nfloods 2\n",
    ),
];

#[test]
fn few_floods(rt: HostRuntime) -> Result<(), Fail> {
    runs(rt.alloc()).lists_all(FEW_FLOODS)
}

/// Asserts the last lines of each report.
fn ends_with_all(rt: &impl AllocGlobal, cases: &[Case]) -> Result<(), Fail> {
    for (line, more, tail) in cases {
        runs(rt.alloc()).ends_with(line, more, b"", tail)?;
    }
    Ok(())
}

const USUAL: &str = "path --stats yes --patterns";

/// The words of long reports, and their last lines: how many sequences they list and how many floods were made.
const USUAL_QUESTIONS: &[Case] = &[
    (
        USUAL,
        &[
            "*p7",
            "--rows",
            "XXXX______/XXXX______/XXXX______/XXXX______",
        ],
        b"\nend 3077\nfloods 40246\n",
    ),
    (
        USUAL,
        &["ILJOSZTILJ", "--hold", "avoid", "--rows", "__________"],
        b"\nend 319\nfloods 31073\n",
    ),
];

#[test]
fn floods_of_usual_questions(rt: HostRuntime) -> Result<(), Fail> {
    ends_with_all(&rt, USUAL_QUESTIONS)
}

const HIGH_QUESTIONS: &[Case] = &[
    (
        "path --clear-line 6 --patterns *p7 --stats yes --rows",
        &["____XXXXXX/____XXXXXX/____XXXXXX/____XXXXXX/____XXXXXX/____XXXXXX"],
        b"\nend 4339\nfloods 59795\n",
    ),
    (
        "path --clear-line 8 --patterns IOTLJSZT --stats yes --rows",
        &[
            "____XXXXXX/____XXXXXX/____XXXXXX/____XXXXXX/____XXXXXX/____XXXXXX/____XXXXXX/____XXXXXX",
        ],
        b"\nend 273\nfloods 11763\n",
    ),
];

#[test]
fn floods_of_high_questions(rt: HostRuntime) -> Result<(), Fail> {
    ends_with_all(&rt, HIGH_QUESTIONS)
}
