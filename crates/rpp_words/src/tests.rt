use super::*;

#[test]
fn words_wrap_and_turn(rt: HostRuntime) {
    for (answer, want, what) in [
        (wrap_add(0xffff_ffff, 2), 1, "sum"),
        (wrap_sub(0, 1), 0xffff_ffff, "difference"),
        (shift_left(3, 33), 6, "shift left"),
        (shift_right(0x8000_0000, 31), 1, "shift right"),
        (
            shift_right_signed(0x8000_0000, 31),
            0xffff_ffff,
            "signed shift right",
        ),
        (turn_left(0x8000_0001, 1), 3, "turn left"),
        (turn_right(3, 1), 0x8000_0001, "turn right"),
        (u32::from(less(0xffff_ffff, 0)), 1, "-1 is below 0"),
        (
            u32::from(less(0x7fff_ffff, 0x8000_0000)),
            0,
            "the greatest is not below the least",
        ),
    ] {
        assert_eq!(rt; answer, want, "{what}");
    }
}

#[test]
fn orders_are_the_least(rt: HostRuntime) {
    for (words, order) in [(0, 1), (2, 1), (3, 2), (4, 2), (5, 3), (1 << 32, 32)] {
        assert_eq!(rt; order_for(words), order, "{words} words");
    }
}
