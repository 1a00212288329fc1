// Each call once, at one size of board or another.
use lane_board::LaneBoard;

#[test]
fn removal_lowers_by_each_full_row_below(rt: HostRuntime) {
    let second = LaneBoard::<16>::rows_below(2).minus(&LaneBoard::rows_below(1));
    let board = LaneBoard::<16>::rows_below(3).minus(&second).with(3, 3);
    assert!(rt; board.full_rows() == 0b101 && board.count() == 21);
    assert!(rt;
        board
            .without_full_rows()
            .equal(&LaneBoard::empty().with(3, 1))
    );
}

/// Two cells, of which the second is in the other set too.
fn left() -> LaneBoard<8> {
    LaneBoard::empty().with(0, 7).with(4, 0)
}

fn right() -> LaneBoard<8> {
    LaneBoard::empty().with(9, 7).with(4, 0)
}

#[test]
fn cells_of_both_sets_and_of_one(rt: HostRuntime) {
    let (left, right) = (left(), right());
    assert!(rt; left.and(&right).equal(&LaneBoard::empty().with(4, 0)));
    assert!(rt; left.minus(&right).equal(&LaneBoard::empty().with(0, 7)));
    assert!(rt; left.minus(&left).is_empty() && !left.is_empty());
}

#[test]
fn cells_of_some_set(rt: HostRuntime) {
    let both = left().or(&right());
    assert!(rt; both.count() == 3 && both.row(7) == 0b10_0000_0001);
    assert!(rt; left().get(0, 7) && !left().get(9, 7));
}

#[test]
fn moves_drop_what_leaves_the_board(rt: HostRuntime) {
    let board = LaneBoard::<24>::empty().with(9, 23).with(0, 0).with(4, 8);
    assert!(rt;
        board
            .moved(1, 0)
            .equal(&LaneBoard::empty().with(1, 0).with(5, 8))
    );
    assert!(rt;
        board
            .moved(0, -1)
            .equal(&LaneBoard::empty().with(9, 22).with(4, 7))
    );
    assert!(rt; board.moved(-1, 2).equal(&LaneBoard::empty().with(3, 10)));
    assert!(rt; board.moved(9, -9).equal(&LaneBoard::empty()));
    assert!(rt;
        board
            .moved(-4, -8)
            .equal(&LaneBoard::empty().with(5, 15).with(0, 0))
    );
}

#[test]
fn sizes(rt: HostRuntime) {
    let board = LaneBoard::<32>::empty().with(5, 31).with(5, 15);
    assert!(rt; board.resized::<16>().equal(&LaneBoard::empty().with(5, 15)));
    assert!(rt;
        board
            .resized::<16>()
            .resized::<24>()
            .equal(&LaneBoard::empty().with(5, 15))
    );
}
