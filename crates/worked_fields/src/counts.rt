// The three counts at small fields.
use prune::{cheap_no, has_uneven_part};
use well::Well;

/// Seven of each kind.
const AMPLE: [u8; 7] = [7; 7];

#[test]
fn counts_refuse(rt: HostRuntime) {
    let uneven = Well::from_rows(b"XXXXX_____").expect(&rt, "a rows text");
    assert!(rt; cheap_no(&uneven, 1, &AMPLE));
    let runs = Well::from_rows(b"__XXXX__XX").expect(&rt, "a rows text");
    assert!(rt; cheap_no(&runs, 1, &AMPLE));
    let line = Well::from_rows(b"XXXXXX____").expect(&rt, "a rows text");
    assert!(rt; !cheap_no(&line, 1, &[1, 0, 0, 0, 0, 0, 0]));
    assert!(rt; cheap_no(&line, 1, &[0; 7]));
}

#[test]
fn walls_divide(rt: HostRuntime) {
    let apart = Well::from_rows(b"X_XXXXXXXX/X_XXXXXXXX/_XXXXXXXXX/_XXXXXXXXX");
    let apart = apart.expect(&rt, "a rows text");
    assert!(rt; !cheap_no(&apart, 4, &AMPLE));
    assert!(rt; has_uneven_part(&apart, 4));
    let square = Well::from_rows(b"XXX__XXXXX/XXX__XXXXX").expect(&rt, "a rows text");
    assert!(rt; !has_uneven_part(&square, 2));
}
