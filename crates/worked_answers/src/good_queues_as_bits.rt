// The bits of one pattern, in enough room and in too little.
ghost use Rattle.std.specs.Prelude.{◌≡◌, ◌<◌};

use crate::questions::{is_so, one_row};
use pc_good_queues::{NoBits, QueueCounts, bytes_for, write_good_queues};
use pc_settings::PercentSettings;
use reach::Steps;
use std::alloc::Global;
use std::marker::Brand;
use std::sync::ledger::{Blank, Ledger};

/// Asks which queues of two pieces clear one row with an `I`.
fn asked<L: Ledger>(alloc: Global, blank: Blank, bits: &mut [u8]) -> Result<QueueCounts, NoBits>
    requires name { blank.name ≡ L.name }
    requires parts { blank.parts ≡ L.parts }
    requires some { 0 < blank.parts }
{
    let settings = PercentSettings {
        common: one_row("*p2"),
        failed: 0,
    };
    let mut steps = Steps::<L>::new(blank);
    write_good_queues(alloc, &settings, &[], bits, &mut steps)
}

/// The queues from `IL` to `IS`, `LI`, `OI`, `ZI`, `TI`, `JI` and `SI`, and two bytes that are left alone.
const BITS: [u8; 8] = [0x7f, 0x10, 0x04, 0x41, 0x10, 0, 0xa5, 0xa5];

#[test]
fn each_queue_has_its_bit(rt: HostRuntime) {
    let mut bits = [0xa5; 8];
    let found = asked::<Brand>(rt.alloc(), Blank::new(1), &mut bits);
    let counted = matches!(found, Ok(counts) if counts.queues == 42 && counts.good == 12);
    is_so(&rt, counted, "queues");
    is_so(&rt, bits == BITS, "bits");
}

#[test]
fn too_little_room_is_left_alone(rt: HostRuntime) {
    let mut bits = [0xa5; 5];
    let found = asked::<Brand>(rt.alloc(), Blank::new(1), &mut bits);
    let is_refused = matches!(found, Err(NoBits::NoRoom { queues: 42 }));
    is_so(&rt, is_refused, "too little room");
    is_so(&rt, bits == [0xa5; 5], "bits that are left alone");
    is_so(&rt, bytes_for(42) == 6, "bytes of 42 bits");
}
