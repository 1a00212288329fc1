// A store that is filled, queried and evicts.
use dead_memo::DeadMemo;
use prune::cheap_no;
use well::Well;

#[test]
fn questions_are_kept(rt: HostRuntime) {
    let mut memo = DeadMemo::new(rt.alloc(), 1).expect(&rt, "memory");
    let well = Well::from_rows(b"XXXXXX____").expect(&rt, "a rows text");
    assert!(rt; !memo.is_dead(&well, 1, &[0; 7]));
    assert!(rt; note(&mut memo, &well, &[0; 7]) && memo.len() == 1);
    assert!(rt; knows_one_question(&mut memo, &well));
}

#[test]
fn a_later_question_evicts_the_first(rt: HostRuntime) {
    let mut memo = DeadMemo::new(rt.alloc(), 1).expect(&rt, "memory");
    let well = Well::from_rows(b"XXXXXX____").expect(&rt, "a rows text");
    assert!(rt; note(&mut memo, &well, &[0; 7]) && memo.is_dead(&well, 1, &[0; 7]));
    assert!(rt; note(&mut memo, &Well::empty(), &[1; 7]) && memo.len() == 1);
    assert!(rt; !memo.is_dead(&well, 1, &[0; 7]));
}

/// Whether a question of one row and no pieces is known as dead, and neither one with a piece nor one of two rows.
fn knows_one_question(memo: &mut DeadMemo, well: &Well) -> bool {
    memo.is_dead(well, 1, &[0; 7])
        && !memo.is_dead(well, 1, &[1, 0, 0, 0, 0, 0, 0])
        && !memo.is_dead(well, 2, &[0; 7])
}

/// Notes a question that counts show to have no tiling.
fn note(memo: &mut DeadMemo, well: &Well, supply: &[u8; 7]) -> bool {
    cheap_no(well, 1, supply) && memo.note_dead(well, 1, supply).is_ok()
}
