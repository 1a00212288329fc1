// A table that is filled, and one without room.
use fact_table::FactTable;

#[test]
fn keeps_the_last_entry_in_a_slot(rt: HostRuntime) {
    let mut table = FactTable::within_memory(rt.alloc(), 4);
    table.put(6, Some('a'));
    table.put(7, Some('b'));
    table.put(2, Some('c'));
    assert!(rt; table.entry(6) == Some(&Some('c')));
    assert!(rt; table.entry(7) == Some(&Some('b')));
    assert!(rt; table.entry(5) == Some(&None));
    table.forget(rt.alloc());
    assert!(rt; table.entry(7) == Some(&None));
}

#[test]
fn keeps_nothing_without_room(rt: HostRuntime) {
    let mut table = FactTable::without_room();
    table.put(6, Some('a'));
    assert!(rt; table.is_without_room());
    assert!(rt; table.entry(6).is_none());
}
